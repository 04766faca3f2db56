//! Scans of a table, and the stores that hold its columns.
#![tactic(auto)]

mod block_scans;
mod decoding;
mod errors;
mod filtering;
mod finding;
mod laws;
mod memory_store;
mod one_block;
mod preparing;
mod reading;
mod reports;
mod scans;
mod stores;

pub use decoding::decode_expr;
pub use errors::{ScanError, Side, StoreError};
pub use laws::{
    faultless_stores_count_no_fault, honest_scans_are_whole, prepared_scans_take_other_slots,
    reads_are_asked, refused_scans_refuse, scan_breaks_where_a_phase_breaks, scan_ends_exclude,
    scans_of_runs, texts_scan_as_they_spell, unbroken_scans_report,
};
pub use memory_store::MemoryStore;
pub use one_block::scan_block;
pub use preparing::{PreparedScan, prepare_both, prepare_scan};
pub use reports::{BlockNumbers, RowValues, ScanReport};
pub use scans::{scan, scan_exprs};
pub use stores::{ColumnStore, ReadEntry};
pub use vx_tables::TableError;
