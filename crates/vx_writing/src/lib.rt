//! The words of `write`: a table on the standard input, as JSON or as a text of CSV, is kept as a block file, or as
//! block files of a folder, with the statistics that its rows have.
#![tactic(auto)]

mod errors;
mod keeping;
mod lines;
mod making;
mod running;

pub use errors::{InputFault, Refusal};
pub use making::files_of_table;
pub use running::write;
