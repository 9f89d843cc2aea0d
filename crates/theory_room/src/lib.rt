// How runs depend on the number of slots: see specs/.
#![tactic(auto)]
