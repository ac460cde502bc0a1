// For tests only: a check of the witness that comes with refusal 11, from the two texts and the
// page alone. It shares no code with the crates that are tested.
#![tactic(auto)]

pub mod basis;
pub mod check;
pub mod copies;
pub mod least;
pub mod lost;
pub mod rows;
pub mod texts;
