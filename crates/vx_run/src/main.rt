//! The program's forms of requests alone, without those over files, so that it is built soon: what the script `vx` runs before the whole program is built.
//! The gate runs it on words that it refuses, where it has to end with another exit status than 0.
#![tactic(auto)]

use std::process::ExitCode;
use vx_process::process;

/// Runs the program on the words of the process and over its standard ends, and ends with its exit status.
fn main(rt: HostRuntime) -> ExitCode {
    process(&rt)
}
