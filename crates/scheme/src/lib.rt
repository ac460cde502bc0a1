// The definition of well-formedness, and the lookup of entries by their prefix.
#![tactic(auto)]

pub mod links;
