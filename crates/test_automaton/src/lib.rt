// For tests only: reading texts in the notation by a finite automaton over their bytes. It shares
// no code with the crates that are tested.
#![tactic(auto)]

pub mod automaton;
pub mod flat;
pub mod rows;
