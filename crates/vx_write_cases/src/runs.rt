// Runs of words over ends in memory.
ghost use Rattle.std.specs.Prelude.{◌<◌, ◌^◌, ◌-◌, All, IfOk};

use crate::kept::kept_text;
use crate::rows::{is_set, list_of, number_in, owned, text_in};
use crate::unkept_files::UnkeptFiles;
use anyhow::Result;
use serde_json::Value;
use std::alloc::Global;
use vx_dtype::Mem;
use vx_files::{Files, MemoryFile, MemoryFiles};
use vx_io::{MemorySink, MemorySource};
use vx_writing::write;

/// How many bytes an end in memory takes in all.
const ROOM: usize = 65536;

/// How many bytes it gives or takes in a call: few, so that a text goes over several calls.
const MOST: usize = 13;

/// What a run came to: its exit status, what it told on standard error, and what the paths of the row lead to.
#[derive(Drop)]
pub(crate) struct Ended {
    pub(crate) status: u8,
    pub(crate) errors: String,
    pub(crate) kept: String,
}

/// Runs the words of a row over its input and its files.
pub(crate) fn run(alloc: Global, row: &Value) -> Result<Ended> {
    if is_set(row, "unkept") {
        let mut files = UnkeptFiles::new(is_set(row, "stands"));
        let (status, errors) = run_over(alloc, row, &mut files)?;
        let kept = owned(alloc, "-")?;
        return Ok(Ended {
            status,
            errors,
            kept,
        });
    }
    let mut files = files_in(alloc, row)?;
    let (status, errors) = run_over(alloc, row, &mut files)?;
    let kept = kept_text(alloc, &files, list_of(row.get("paths")))?;
    Ok(Ended {
        status,
        errors,
        kept,
    })
}

/// Runs the words of a row over files: the exit status, and what was told on standard error.
fn run_over<F: Files>(alloc: Global, row: &Value, files: &mut F) -> Result<(u8, String)> {
    let words = words_in(alloc, row)?;
    let mut input = input_in(alloc, row)?;
    let mut errors = MemorySink::new(alloc, ROOM, MOST, Vec::new(alloc))?;
    let status = write(alloc, words.as_slice(), files, &mut input, &mut errors);
    let told = str::from_utf8(errors.written()).unwrap_or("");
    Ok((status, owned(alloc, told)?))
}

/// The words of a row.
fn words_in(alloc: Global, row: &Value) -> Result<Vec<String>> {
    let mut words = Vec::new(alloc);
    for word in list_of(row.get("words")) {
        words.push(owned(alloc, word.as_str().unwrap_or(""))?)?;
    }
    Ok(words)
}

/// The bytes of a text, or those of digits where the row has some.
fn first_bytes_in(alloc: Global, row: &Value) -> Result<Vec<u8>> {
    let digits = text_in(row, "digits");
    if digits.is_empty() {
        return Ok(Vec::from_clones(alloc, text_in(row, "input").as_bytes())?);
    }
    Ok(hex::decode(alloc, digits.as_bytes())?)
}

/// The bytes of the standard input: the first ones, and behind them a line as often as the row says.
fn bytes_in(alloc: Global, row: &Value) -> Result<Vec<u8>> {
    let mut bytes = first_bytes_in(alloc, row)?;
    let line = text_in(row, "line").as_bytes();
    for _ in 0..number_in(row, "times") {
        bytes.extend_from_slice(line)?;
    }
    Ok(bytes)
}

/// What stands on the standard input, of which the read of a number, from 1, fails.
fn input_in(alloc: Global, row: &Value) -> Result<MemorySource> {
    let bytes = bytes_in(alloc, row)?;
    let fails = numbers_of(alloc, number_in(row, "fails"))?;
    Ok(MemorySource::new(bytes, MOST, fails))
}

/// The files in memory of a row: a list of paths beside the digits of their bytes.
fn files_in(alloc: Global, row: &Value) -> Result<MemoryFiles> {
    let mut files = Vec::new(alloc);
    for file in list_of(row.get("files")) {
        files.push(MemoryFile {
            path: owned(alloc, text_in(file, "path"))?,
            bytes: hex::decode(alloc, text_in(file, "bytes").as_bytes())?,
        })?;
    }
    Ok(MemoryFiles::new(alloc, files))
}

/// The number of the call that fails, where there is one.
fn numbers_of(alloc: Global, fails: u64) -> Mem<Vec<u64>>
    ensures { IfOk result (λ numbers. All (λ n. n < 2 ^ 64 - 1) numbers.items) }
{
    if fails == 0 {
        return Ok(Vec::new(alloc));
    }
    Ok(vec![in alloc; fails.min(1_000_000)]?)
}
