// What is asked for in two lines, a set of patterns and a length, and the lines of the avoiders.
#![tactic(auto)]

pub mod judging;
pub mod listing;
pub mod text;
pub mod writing;
