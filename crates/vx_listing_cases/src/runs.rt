// Runs of words over ends in memory.
use crate::rows::{list_of, number_in, owned, text_in};
use crate::watched_files::{WatchedFiles, numbers_of};
use anyhow::Result;
use serde_json::Value;
use std::alloc::Global;
use vx_files::{MemoryFile, MemoryFiles};
use vx_io::MemorySink;
use vx_listing::blocks;

/// How many bytes an end in memory takes in all.
const ROOM: usize = 65536;

/// How many bytes it takes in a call: few, so that a line goes over several calls.
const MOST: usize = 13;

/// What a run came to: its exit status, what it wrote to the output, and what it told on standard error.
#[derive(Drop)]
pub(crate) struct Ended {
    pub(crate) status: u8,
    pub(crate) output: String,
    pub(crate) errors: String,
}

/// Runs the words of a row over its files.
pub(crate) fn run(alloc: Global, row: &Value) -> Result<Ended> {
    let words = words_in(alloc, row)?;
    let files = files_in(alloc, row)?;
    let files = WatchedFiles::new(
        alloc,
        files,
        number_in(row, "read"),
        number_in(row, "front"),
        owned(alloc, text_in(row, "closed"))?,
    );
    let fails = numbers_of(alloc, number_in(row, "write"))?;
    let mut output = MemorySink::new(alloc, ROOM, MOST, fails)?;
    let fails = numbers_of(alloc, number_in(row, "telling"))?;
    let mut errors = MemorySink::new(alloc, ROOM, MOST, fails)?;
    let status = blocks(alloc, words.as_slice(), &files, &mut output, &mut errors);
    Ok(Ended {
        status,
        output: text_of(alloc, &output)?,
        errors: text_of(alloc, &errors)?,
    })
}

/// What was written to an end.
fn text_of(alloc: Global, end: &MemorySink) -> Result<String> {
    owned(alloc, str::from_utf8(end.written()).unwrap_or(""))
}

/// The words of a row.
fn words_in(alloc: Global, row: &Value) -> Result<Vec<String>> {
    let mut words = Vec::new(alloc);
    for word in list_of(row.get("words")) {
        words.push(owned(alloc, word.as_str().unwrap_or(""))?)?;
    }
    Ok(words)
}

/// The files in memory of a row: a list of paths beside the digits of their bytes.
fn files_in(alloc: Global, row: &Value) -> Result<MemoryFiles> {
    let mut files = Vec::new(alloc);
    for file in list_of(row.get("files")) {
        files.push(MemoryFile {
            path: owned(alloc, text_in(file, "path"))?,
            bytes: hex::decode(alloc, text_in(file, "bytes").as_bytes())?,
        })?;
    }
    Ok(MemoryFiles::new(alloc, files))
}
