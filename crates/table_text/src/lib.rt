// The bytes that the table program prints.
#![tactic(auto)]

pub mod printing;
