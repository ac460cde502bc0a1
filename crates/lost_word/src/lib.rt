// The least word that a deletion loses at one spacing.
#![tactic(auto)]

pub mod least;
