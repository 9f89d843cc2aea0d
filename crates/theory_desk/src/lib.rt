// The laws of the desk that a log says, before and after the records of a call: see specs/.
#![tactic(auto)]
