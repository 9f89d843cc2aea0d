// The reserves make an undo find room: see specs/.
#![tactic(auto)]
