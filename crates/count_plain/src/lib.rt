// The plain evaluation: counting without a table.
#![tactic(auto)]

pub mod counting;
pub mod evaluation;
pub mod reading;
pub mod spacings;
