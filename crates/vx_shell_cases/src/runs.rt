// Runs of words over ends in memory.
ghost use Rattle.std.specs.Prelude.{◌<◌, ◌^◌, ◌-◌, All, IfOk};

use crate::errors::CaseError;
use crate::rows::{is_set, list_of, number_in, owned, text_in};
use serde_json::Value;
use std::alloc::Global;
use std::cell::Cell;
use std::io;
use std::time::{Clock, Duration};
use vx_dtype::Mem;
use vx_files::{DiskFiles, Files, MemoryFile, MemoryFiles};
use vx_io::{MemorySink, MemorySource};
use vx_shell::sql;

/// How many bytes an end in memory takes in all.
const ROOM: usize = 65536;

/// How many bytes it gives or takes in a call: few, so that lines go over several calls.
const MOST: usize = 13;

/// What a run came to: its exit status, its output, and what it told on standard error.
#[derive(Drop)]
pub(crate) struct Ended {
    pub(crate) status: u8,
    pub(crate) output: String,
    pub(crate) errors: String,
}

/// A clock that goes on by as many milliseconds with each reading.
#[derive(Drop)]
struct Ticking {
    step: u64,
    readings: Cell<u64>,
}

impl Clock for Ticking {
    fn monotonic(&self) -> io::Result<Duration> {
        let readings = self.readings.get().saturating_add(1);
        self.readings.set(readings);
        Ok(Duration::from_millis(self.step.saturating_mul(readings)))
    }

    fn since_1970(&self) -> io::Result<Duration> {
        Ok(Duration::from_secs(0))
    }
}

/// Runs the words of a row over its input, and over its files, in memory or on disk.
pub(crate) fn run(rt: &HostRuntime, row: &Value) -> Result<Ended, CaseError> {
    if is_set(row, "disk") {
        return run_over(rt.alloc(), row, &DiskFiles::new(rt));
    }
    let files = files_in(rt.alloc(), row)?;
    run_over(rt.alloc(), row, &files)
}

/// Runs the words of a row over files.
fn run_over<F: Files>(alloc: Global, row: &Value, files: &F) -> Result<Ended, CaseError> {
    let words = words_in(alloc, row)?;
    let mut input = input_in(alloc, row)?;
    let mut output = sink(alloc, number_in(row, "fails"))?;
    let mut errors = sink(alloc, 0)?;
    let clock = Ticking {
        step: number_in(row, "ticks"),
        readings: Cell::new(0),
    };
    let status = sql(
        alloc,
        words.as_slice(),
        files,
        &mut input,
        &mut output,
        &mut errors,
        &clock,
    );
    Ok(Ended {
        status,
        output: text_of(alloc, output.written())?,
        errors: text_of(alloc, errors.written())?,
    })
}

/// The words of a row.
fn words_in(alloc: Global, row: &Value) -> Result<Vec<String>, CaseError> {
    let mut words = Vec::new(alloc);
    for word in list_of(row.get("words")) {
        words.push(owned(alloc, word.as_str().unwrap_or(""))?)?;
    }
    Ok(words)
}

/// What stands on the standard input, of which the read of a number, from 1, fails.
fn input_in(alloc: Global, row: &Value) -> Result<MemorySource, CaseError> {
    let bytes = Vec::from_clones(alloc, text_in(row, "input").as_bytes())?;
    let fails = numbers_of(alloc, number_in(row, "unread"))?;
    Ok(MemorySource::new(bytes, MOST, fails))
}

/// The files in memory of a row: a list of paths beside the digits of their bytes.
fn files_in(alloc: Global, row: &Value) -> Result<MemoryFiles, CaseError> {
    let mut files = Vec::new(alloc);
    for file in list_of(row.get("files")) {
        files.push(MemoryFile {
            path: owned(alloc, text_in(file, "path"))?,
            bytes: hex::decode(alloc, text_in(file, "bytes").as_bytes())?,
        })?;
    }
    Ok(MemoryFiles::new(alloc, files))
}

/// A sink whose call of a number, from 1, fails, or none where this is 0.
fn sink(alloc: Global, fails: u64) -> Mem<MemorySink> {
    MemorySink::new(alloc, ROOM, MOST, numbers_of(alloc, fails)?)
}

/// The number of the call that fails, where there is one.
fn numbers_of(alloc: Global, fails: u64) -> Mem<Vec<u64>>
    ensures { IfOk result (λ numbers. All (λ n. n < 2 ^ 64 - 1) numbers.items) }
{
    if fails == 0 {
        return Ok(Vec::new(alloc));
    }
    Ok(vec![in alloc; fails.min(1_000_000)]?)
}

/// Bytes as a text, empty where they are none.
fn text_of(alloc: Global, bytes: &[u8]) -> Result<String, CaseError> {
    owned(alloc, str::from_utf8(bytes).unwrap_or(""))
}
