// What n and the table of a count are refused for, and the layout of the table.
#![tactic(auto)]

pub mod measure;
