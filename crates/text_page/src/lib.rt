// Bytes and numbers written over a lent page.
#![tactic(auto)]

pub mod bytes;
