// The starred examples of document 01, as theorems on the definitions: specs/Starred.antt.
#![tactic(auto)]
