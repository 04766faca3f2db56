//! What a run of `blocks` over words is: the form of the words, the lines that tell the columns and the blocks of a table, of a block file or of
//! those of a folder, and the laws of what is listed,
//! each the contract of a function that does nothing.
#![tactic(auto)]

mod laws;

pub use laws::{headers_decide_listings, one_folder_listing, one_listing, written_is_listed};
