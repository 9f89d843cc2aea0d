// DEMAND 3, proved: see specs/.
#![tactic(auto)]
