//! What a block file is: the bytes of a table with its statistics, what bytes hold as one, and the laws of both: each law is the contract of a function
//! that does nothing.
#![tactic(auto)]

mod damage;
mod examples;
mod opening;
mod writing;

pub use damage::{
    a_range_spells_one_list, held_is_a_table, held_is_read, range_values_are_spelled,
    read_is_not_damaged, whole_is_a_file,
};
pub use examples::{
    another_range_is_damaged, headers_have_limits, other_bytes_are_refused,
    small_files_hold_their_tables, small_tables_have_these_files,
};
pub use opening::{
    a_range_stands_at_its_place, header_and_end_open, no_file_begins_another, one_refusal,
    refused_zones_have_doubles,
};
pub use writing::{files_are_short, one_table, written_is_opened};
