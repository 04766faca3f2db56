//! The program as a process runs it: over its words and its two standard ends, to an exit status.
#![tactic(auto)]

ghost use Rattle.std.specs.Prelude.{map, Option};
ghost use Rattle.std.specs.Process.{exit_status};
ghost use Rattle.std.specs.String.{string_bytes};
ghost use Rattle.vx_scan.specs.Stores.{StoreSeen};
ghost use Rattle.vx_query.specs.Running.{IsRun, end_by, form_of};

use std::alloc::Global;
use std::env;
use std::io::ErrorKind;
use std::process::ExitCode;
use vx_io::{Sink, Source, StdinSource, StdoutSink};
use vx_query::run;

/// The exit status where there is no memory for the words.
const NO_MEMORY: u8 = 8;

/// Runs the program over two ends, as [`vx_query::run`] does, and answers its exit status as that of a process.
pub fn exit_code<I: Source, O: Sink>(
    alloc: Global,
    arguments: &[String],
    input: &mut I,
    output: &mut O,
) -> ExitCode
    ensures { let source = end_by I.left I.faults in let sink = end_by O.written O.faults in (used : Option StoreSeen)
        × IsRun (form_of (map string_bytes arguments.now)) (source input.old) (source input.new) (sink output.old) (sink output.new) used
        (exit_status result) }
{
    let mut used = None;
    ExitCode::from(run(alloc, arguments, input, output, &mut used))
}

/// Runs the program on the words behind its name and over its standard ends: all that its `main` does. Where there is no
/// memory for the words nothing is written, and the exit status is 8.
pub fn process(rt: &HostRuntime) -> ExitCode {
    match arguments(rt) {
        Some(arguments) => exit_code(
            rt.alloc(),
            arguments.as_slice(),
            &mut StdinSource::new(rt.stdin()),
            &mut StdoutSink::new(rt.stdout()),
        ),
        None => ExitCode::from(NO_MEMORY),
    }
}

/// The words behind the program's name. Where one isn't UTF-8 there are none, which has no form either. None where there is
/// no memory for them.
pub fn arguments(rt: &HostRuntime) -> Option<Vec<String>> {
    let mut arguments = Vec::new(rt.alloc());
    match env::args(rt) {
        Ok(args) => {
            for argument in args.skip(1) {
                arguments.push(argument).ok()?;
            }
            Some(arguments)
        }
        Err(error) if error.kind() == ErrorKind::OutOfMemory => None,
        Err(_) => Some(arguments),
    }
}
