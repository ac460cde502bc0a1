// Counting by inversions by the table: the rows are filled, and the figures of ε are read.
#![tactic(auto)]

pub mod entry;
pub mod root;
pub mod rows;
