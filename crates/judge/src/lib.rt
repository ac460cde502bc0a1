// The judge: the tests on lists in memory, and what an acceptance reports.
#![tactic(auto)]

pub mod deletions;
pub mod judging;
pub mod live_gaps;
