//! The generated table: its statistics and its blocks, the filter and the projection by which it is scanned, and the line that tells what the scan gives.
#![tactic(auto)]

mod blocks;
mod expressions;
mod laws;
mod numbers;
mod scanning;
mod statistics;
mod tables;

pub use laws::generated_blocks_are_the_table;
pub use scanning::{GeneratedScan, scan_generated};
pub use tables::{GeneratedTable, generated};
