// What restart checks of pages and rows is kept: see specs/.
#![tactic(auto)]
