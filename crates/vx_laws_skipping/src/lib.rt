//! Laws: which blocks filters of the exact class skip, and that skipping by the statistics that a table has loses no row. Each is the contract of a
//! function that does nothing but call the laws that it follows from.
#![tactic(auto)]

mod building;
mod skipping;

pub use building::built_scans_are_whole;
pub use skipping::{ruled_out_is_exact, scans_skip_exactly};
