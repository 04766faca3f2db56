//! The program `vx`.
#![tactic(auto)]

use std::process::ExitCode;
use vx_program::process;

/// Runs the program on the words of the process, over its standard ends and the files of the operating system, and ends with its exit status.
fn main(rt: HostRuntime) -> ExitCode {
    process(&rt)
}
