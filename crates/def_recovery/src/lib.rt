// The plain book and the statement of demand 3: see specs/.
#![tactic(auto)]
