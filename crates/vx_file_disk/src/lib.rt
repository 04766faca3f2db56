//! Files of the operating system as sources that are read by places: the trusted edge.
#![tactic(auto)]

mod file_range;

pub use file_range::FileRange;
