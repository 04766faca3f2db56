//! The first rows of a table by a key: found block by block, under a bound that tightens.
#![tactic(auto)]

mod errors;
mod finding;
mod first_rows;
mod laws;
mod ready;
mod reports;
mod row_keys;
mod ruled_runs;
mod slots;
mod tops;

pub use errors::TopError;
pub use laws::{
    honest_tops_are_first, refused_tops_refuse, top_ends_exclude, tops_break_where_a_phase_breaks,
    unbroken_tops_report,
};
pub use reports::TopReport;
pub use slots::unseen_slots_are_none;
pub use tops::top_rows;
