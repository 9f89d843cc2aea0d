// What a call leaves in its bytes is read back: see specs/.
#![tactic(auto)]
