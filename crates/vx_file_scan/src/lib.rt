//! The scan of a block file: what it shows of damaged ranges.
#![tactic(auto)]

mod first_failures;
mod laws;
mod scanning;

pub use first_failures::FirstFailure;
pub use laws::{
    damage_is_a_store_fault, files_are_left_at_failures, honest_file_scans_are_whole,
    scans_of_one_table_end_the_same, undamaged_scans_end_as_in_memory,
    undamaged_scans_end_by_their_phases,
};
pub use scanning::{FileScan, scan_file};
