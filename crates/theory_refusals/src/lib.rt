// Refusals: their numbers, the order of checks, and what a refused call leaves: see specs/.
#![tactic(auto)]
