//! The program `vx`: each form of words by the first of them, over its ends and the files that it can open and keep.
#![tactic(auto)]

mod processes;
mod programs;
mod telling;
mod terminals;
mod words;

pub use processes::process;
pub use programs::program;
