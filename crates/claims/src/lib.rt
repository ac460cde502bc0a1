// The claims of one entry, judged in memory.
#![tactic(auto)]

pub mod entries;
pub mod gaps;
