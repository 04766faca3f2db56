// The program as a process runs it: over its words, its three standard ends and the files of the operating system.
use crate::programs::program;
use crate::terminals::tell_terminal;
use std::process::ExitCode;
use vx_files::DiskFiles;
use vx_io::{StdinSource, StdoutSink, WriterSink};
use vx_process::arguments;

/// The exit status where there is no memory for the words.
const NO_MEMORY: u8 = 8;

/// Runs the program on the words behind its name, over its standard ends and the files of the operating system: all that its `main` does. Where words take the
/// standard input and this is a terminal, a line on standard error says so. Where there is no memory for the words nothing is written, and the exit status is 8.
pub fn process(rt: &HostRuntime) -> ExitCode {
    let Some(words) = arguments(rt) else {
        return ExitCode::from(NO_MEMORY);
    };
    tell_terminal(rt, words.as_slice());
    ExitCode::from(program(
        rt.alloc(),
        words.as_slice(),
        &mut DiskFiles::new(rt),
        &mut StdinSource::new(rt.stdin()),
        &mut StdoutSink::new(rt.stdout()),
        &mut WriterSink::new(rt.stderr()),
        rt,
    ))
}
