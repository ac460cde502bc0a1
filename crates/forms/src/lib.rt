// The memory forms: patterns, entries, schemes and findings, the lists that they stand for, and a
// prefix as one number.
#![tactic(auto)]

pub mod codes;
pub mod gaps;
pub mod memory;
pub mod order;
