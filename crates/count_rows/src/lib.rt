// Counting by the table: the rows are filled, a value is read in a row that is there, the needed
// cells are cleared.
#![tactic(auto)]

pub mod rows;
pub mod run;
pub mod values;
