// One step of the count, and the cells of one entry.
#![tactic(auto)]

pub mod cells;
pub mod filling;
pub mod sums;
