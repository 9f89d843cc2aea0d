// The laws of redo: see specs/.
#![tactic(auto)]
