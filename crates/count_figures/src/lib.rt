// One step of counting by inversions, and the cells of one entry.
#![tactic(auto)]

pub mod adding;
pub mod children;
pub mod filling;
pub mod sizes;
