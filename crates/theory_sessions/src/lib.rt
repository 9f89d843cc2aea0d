// The worked sessions on bytes, and what demand 3 grants, shown: see specs/.
#![tactic(auto)]
