//! A table's blocks cut anew, into blocks of so many rows, the last one of what is left; and put into parts, each of at most so many rows.
#![tactic(auto)]

mod columns;
mod cutting;
mod errors;
mod laws;
mod parting;

pub use cutting::{CutTable, cut_anew};
pub use errors::CutError;
pub use laws::{cut_tables_are_tables, cutting_keeps_rows, parts_are_the_table};
pub use parting::in_parts;
