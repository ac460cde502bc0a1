// A cursor over the cells of the table, in the order in which they are filled.
#![tactic(auto)]

pub mod cursor;
