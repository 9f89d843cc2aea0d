// What stands in bytes, and is read back from them: see specs/.
#![tactic(auto)]
