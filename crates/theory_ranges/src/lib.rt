// Every number of a history fits its field: see specs/.
#![tactic(auto)]
