// The candidate search, and the levels that patterns need in it.
#![tactic(auto)]

pub mod needed;
pub mod search;
