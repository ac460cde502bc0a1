// The published notation, read and written: the public operations.
#![tactic(auto)]

pub mod patterns;
pub mod schemes;
