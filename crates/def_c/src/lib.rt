// The calls as C makes them, and demand 3 over them: see specs/.
#![tactic(auto)]
