//! Which blocks of a table a filter rules out by the table's statistics: the filter's pruning expression, evaluated over them.
#![tactic(auto)]

mod joined_names;
mod rules;
mod ruling;
mod statistics;
mod tables;
mod truths;

pub use rules::PruningRule;
pub use ruling::ruled_out;
