//! Expressions over the rows of a table, ready to be evaluated block by block over the columns that they ask.
#![tactic(auto)]

mod counting;
mod evaluating;
mod prepared;
mod splitting;

pub use prepared::{PreparedExpr, prepare};
