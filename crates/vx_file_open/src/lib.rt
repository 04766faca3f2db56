//! Opening block files: where the header and the ranges of a file stand in its source, and the columns that are read of it.
#![tactic(auto)]

mod columns;
mod errors;
mod fronts;
mod layouts;
mod opening;

pub use columns::read_column;
pub use errors::FileError;
pub use layouts::Layout;
pub use opening::read_layout;
