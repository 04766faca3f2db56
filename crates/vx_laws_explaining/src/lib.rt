//! What a run of `explain sql` over words is: the form of the words, the texts that explain a statement over the zones of a table, and the laws of what is
//! explained, each the contract of a function that does nothing.
#![tactic(auto)]

mod laws;

pub use laws::{one_explanation, plans_are_typed, skipped_as_scans};
