//! Laws of simplifying, ranges and replacing, that each keeps what an expression means: each is the contract of a function that does nothing.
#![tactic(auto)]

mod packed_rows;
mod ranges;
mod replacing;
mod simplifying;

pub use packed_rows::{packed_rows_keep_meaning, packed_rows_keep_type};
pub use ranges::{ranges_keep_breaks, ranges_keep_columns, ranges_keep_meaning, ranges_keep_type};
pub use replacing::{replacing_keeps_meaning, replacing_keeps_type};
pub use simplifying::{simplified_keeps, without_packed_fields_keeps};
