// What C functions leave where they refuse a length: see specs/.
#![tactic(auto)]
