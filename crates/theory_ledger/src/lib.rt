// The laws of the open batches, the pending rule and the slides: see specs/.
#![tactic(auto)]
