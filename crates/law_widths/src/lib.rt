// What any record makes of a page within its fields is within them again: see specs/.
#![tactic(auto)]
