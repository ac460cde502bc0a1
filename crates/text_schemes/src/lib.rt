// A scheme read from a text into memory.
#![tactic(auto)]

pub mod parts;
pub mod scheme_reader;
