// The notation: its marks, tokens and grammar, and a cursor that finds tokens in a text.
#![tactic(auto)]

pub mod cursor;
pub mod marks;
