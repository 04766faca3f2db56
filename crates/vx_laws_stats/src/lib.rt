//! The statistics that the rows of a table have, and their laws: each is the contract of a function that does nothing.
#![tactic(auto)]

mod built;

pub use built::{
    built_bounds_are_extreme, built_statistics_are_honest, built_statistics_are_zones,
    built_statistics_follow_paths, built_statistics_lose_no_row,
};
