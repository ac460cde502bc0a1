// Pattern sets and schemes written over a lent page.
#![tactic(auto)]

pub mod writing;
