// What redo meets fits: see specs/.
#![tactic(auto)]
