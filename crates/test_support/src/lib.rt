// For test programs only: printing, the lines of standard input and what they spell, parts of byte
// lists, and counts.
// It shares no code with the crates that are tested.
#![tactic(auto)]

pub mod counts;
pub mod lines;
pub mod parts;
pub mod print;
pub mod spelt;
