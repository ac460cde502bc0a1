// A pattern set read from a text into memory.
#![tactic(auto)]

pub mod digits;
pub mod pattern_reader;
