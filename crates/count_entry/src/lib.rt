// The layout of a table in memory, and the cells of the cursor's entry in its row.
#![tactic(auto)]

pub mod entry;
pub mod frame;
