//! The words of `blocks`: the columns of a block file, or of the block files of a folder, and a line for each of the blocks with its rows and its statistics,
//! in the form of JSON. Of each file its header is read.
#![tactic(auto)]

mod columns;
mod errors;
mod folders;
mod lines;
mod listing;
mod running;
mod statistics;
mod words;
mod writing;

pub use errors::ListingError;
pub use listing::list_file;
pub use running::blocks;
