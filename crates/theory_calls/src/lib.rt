// What each call that passes its checks leaves: see specs/.
#![tactic(auto)]
