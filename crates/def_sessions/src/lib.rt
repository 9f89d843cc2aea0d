// The worked sessions of document 01, computed by its definitions: see specs/.
#![tactic(auto)]
