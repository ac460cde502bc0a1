// Counting with an accepted scheme, by the table, plainly, and by inversions.
#![tactic(auto)]

pub mod by_inversions;
pub mod by_table;
pub mod plainly;
pub mod values;
