// What the bytes of the lent areas hold: see specs/.
#![tactic(auto)]
