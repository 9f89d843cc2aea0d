// The laws of updates: see specs/.
#![tactic(auto)]
