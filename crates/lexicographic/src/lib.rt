// The first avoider of a length, and the next after an avoider, in lexicographic order.
#![tactic(auto)]

pub mod listing;
