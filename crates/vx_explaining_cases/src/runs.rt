// Runs of words over ends in memory.
use crate::hindered_files::{HinderedFiles, numbers_of};
use crate::rows::{list_of, number_in, owned, text_in};
use anyhow::Result;
use serde_json::Value;
use std::alloc::Global;
use vx_dtype::Mem;
use vx_explaining::explain_sql;
use vx_files::{MemoryFile, MemoryFiles};
use vx_io::{MemorySink, MemorySource};

/// How many bytes an end in memory takes in all.
const ROOM: usize = 65536;

/// How many bytes it gives or takes in a call: few, so that lines go over several calls.
const MOST: usize = 13;

/// What a run came to: its exit status, what it wrote to the output, and what it told on standard error.
#[derive(Drop)]
pub(crate) struct Ended {
    pub(crate) status: u8,
    pub(crate) output: String,
    pub(crate) errors: String,
}

/// Runs the words of a row over its input and its files.
pub(crate) fn run(alloc: Global, row: &Value) -> Result<Ended> {
    let words = words_in(alloc, row)?;
    let files = files_in(alloc, row)?;
    let mut input = input_in(alloc, row)?;
    let mut output = sink(alloc, number_in(row, "write"))?;
    let mut errors = sink(alloc, number_in(row, "telling"))?;
    let status = explain_sql(
        alloc,
        words.as_slice(),
        &files,
        &mut input,
        &mut output,
        &mut errors,
    );
    Ok(Ended {
        status,
        output: text_of(alloc, &output)?,
        errors: text_of(alloc, &errors)?,
    })
}

/// What was written to an end.
fn text_of(alloc: Global, end: &MemorySink) -> Result<String> {
    owned(alloc, str::from_utf8(end.written()).unwrap_or(""))
}

/// The words of a row.
fn words_in(alloc: Global, row: &Value) -> Result<Vec<String>> {
    let mut words = Vec::new(alloc);
    for word in list_of(row.get("words")) {
        words.push(owned(alloc, word.as_str().unwrap_or(""))?)?;
    }
    Ok(words)
}

/// What stands on the standard input, of which the read of a number, from 1, fails.
fn input_in(alloc: Global, row: &Value) -> Result<MemorySource> {
    let bytes = Vec::from_clones(alloc, text_in(row, "input").as_bytes())?;
    let fails = numbers_of(alloc, number_in(row, "unread"))?;
    Ok(MemorySource::new(bytes, MOST, fails))
}

/// The files in memory of a row: a list of paths beside the digits of their bytes, with the path of one that can't be opened, and of one
/// whose first read fails.
fn files_in(alloc: Global, row: &Value) -> Result<HinderedFiles> {
    let mut files = Vec::new(alloc);
    for file in list_of(row.get("files")) {
        files.push(MemoryFile {
            path: owned(alloc, text_in(file, "path"))?,
            bytes: hex::decode(alloc, text_in(file, "bytes").as_bytes())?,
        })?;
    }
    Ok(HinderedFiles::new(
        alloc,
        MemoryFiles::new(alloc, files),
        owned(alloc, text_in(row, "closed"))?,
        owned(alloc, text_in(row, "torn"))?,
    ))
}

/// A sink whose call of a number, from 1, fails, or none where this is 0.
fn sink(alloc: Global, fails: u64) -> Mem<MemorySink> {
    MemorySink::new(alloc, ROOM, MOST, numbers_of(alloc, fails)?)
}
