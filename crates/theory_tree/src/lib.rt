// The laws of the tree: see specs/.
#![tactic(auto)]
