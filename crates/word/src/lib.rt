// Words: the refusals, the ceilings, permutations.
#![tactic(auto)]

pub mod limits;
pub mod permutation;
pub mod refusal;
