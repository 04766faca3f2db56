//! The words of `explain sql`: what a statement would read of a table, told from its zones alone. Of block files the headers are read, and no block.
#![tactic(auto)]

mod columns;
mod deciders;
mod errors;
mod explained;
mod folders;
mod json;
mod marks;
mod origins;
mod pictures;
mod pieces;
mod plans;
mod running;
mod tables;
mod texts;
mod values;
mod words;
mod writing;

pub use running::explain_sql;
