// What the table program prints, from what was kept of its input.
#![tactic(auto)]

pub mod printing;
