// A log and all that it leads to: see specs/.
#![tactic(auto)]
