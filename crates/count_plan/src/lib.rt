// The plan of a count: the sheet of a scheme, how many rows the table keeps, and where in a row the
// cells of each entry stand.
#![tactic(auto)]

pub mod cards;
pub mod places;
pub mod reading;
pub mod rows;
pub mod sheet;
