//! What a run of `write` over words is: the form of the words, the file or the files that are kept of a table, and their laws, each the contract of a function
//! that does nothing.
#![tactic(auto)]

mod laws;

pub use laws::{
    blocks_cut_are_cut_anew, numbered_names_ascend, what_is_in_a_folder_is_the_table,
    what_is_written_is_the_table, what_is_written_is_the_text,
};
