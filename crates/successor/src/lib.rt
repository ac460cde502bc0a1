// The first avoider that begins with given entries, and the next after an avoider, place by place.
#![tactic(auto)]

pub mod least;
pub mod values;
