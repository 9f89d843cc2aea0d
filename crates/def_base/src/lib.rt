// Tests that compute and the facts they stand for: see specs/.
#![tactic(auto)]
