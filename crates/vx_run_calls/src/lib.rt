//! The program as a call over bytes alone: its words, its input and what it writes stand in memory.
#![tactic(auto)]

mod memory_runs;
mod sinks;
mod sources;
mod words;

pub use memory_runs::run_bytes;
pub use vx_calls::Answer;
