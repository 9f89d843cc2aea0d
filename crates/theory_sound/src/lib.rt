// What holds of every sound register: see specs/.
#![tactic(auto)]
