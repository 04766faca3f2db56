//! What a text of SQL names over a table, and its laws: each is the contract of a function that does nothing.
#![tactic(auto)]

mod table_names;
mod typing;

pub use table_names::{tables_are_named, unnamed_tables_are_refused};
pub use typing::{conditions_are_tests, expressions_are_typed, plans_are_typed};
