// Numbers, gap vectors and sets of positions read from a text into memory.
#![tactic(auto)]

pub mod gap_reader;
pub mod parts;
pub mod positions;
