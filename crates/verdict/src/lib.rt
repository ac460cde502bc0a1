// The answer of judging.
#![tactic(auto)]

pub mod answer;
