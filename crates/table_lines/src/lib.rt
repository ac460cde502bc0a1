// What is kept of an input of three lines.
#![tactic(auto)]

pub mod input;
