// One candidate of the search: its word, and whether a copy can be placed in it.
#![tactic(auto)]

pub mod placing;
pub mod tables;
