// For tests only: the permutations of a length, containment by trying every set of positions, the
// cells that a count needs, and pages of cells. It shares no code with the crates that are tested;
// of `forms` it has the types of a set and of a scheme.
#![tactic(auto)]

pub mod cells;
pub mod direct;
pub mod need;
pub mod permutations;
pub mod sets;
pub mod words;
