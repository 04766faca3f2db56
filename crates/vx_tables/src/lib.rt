//! Blocks of columns as a table: whether they are as long and of the types that its zones say, and the column of a block and a name.
#![tactic(auto)]

mod errors;
mod tables;

pub use errors::TableError;
pub use tables::{columns_of, have_lengths, have_types, held_column};
