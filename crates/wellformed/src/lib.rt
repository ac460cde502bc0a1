// The tests of well-formedness of a scheme list, in their order.
#![tactic(auto)]

pub mod entry_pass;
pub mod entry_tests;
pub mod scheme_tests;
