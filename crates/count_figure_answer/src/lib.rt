// What counting by inversions answers: the refusals of n, of the table and of the results.
#![tactic(auto)]

pub mod measure;
