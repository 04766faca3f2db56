// What paths lead to, as a text.
use crate::rows::owned;
use anyhow::Result;
use serde_json::Value;
use std::alloc::Global;
use vx_files::{Files, MemoryFiles, OpenError, is_folder};

/// How many bytes are told by their digits; of more than that their number is told.
const MOST_DIGITS: usize = 65536;

/// What paths lead to, one behind another.
pub(crate) fn kept_text(alloc: Global, files: &MemoryFiles, paths: &[Value]) -> Result<String> {
    let mut text = String::new(alloc);
    for path in paths {
        if !text.is_empty() {
            text.push_str("; ")?;
        }
        let kept = kept_at(alloc, files, path.as_str().unwrap_or(""))?;
        text.push_str(kept.as_str())?;
    }
    Ok(text)
}

/// What a path leads to: the digits of the bytes of a file, and of a folder the names of its files, in their order, each with its digits; `-` where there is
/// nothing.
fn kept_at(alloc: Global, files: &MemoryFiles, path: &str) -> Result<String> {
    if is_folder(path) {
        return kept_in(alloc, files, path);
    }
    match files.bytes_of(path) {
        Some(bytes) => digits(alloc, bytes),
        None => owned(alloc, "-"),
    }
}

/// The files in a folder.
fn kept_in(alloc: Global, files: &MemoryFiles, folder: &str) -> Result<String> {
    match files.list(folder) {
        Ok(names) => kept_under(alloc, files, folder, names),
        Err(OpenError::NotOpened) => owned(alloc, "-"),
        Err(OpenError::NoMemory) => owned(alloc, "no memory"),
    }
}

/// The files of these names in a folder.
fn kept_under(
    alloc: Global,
    files: &MemoryFiles,
    folder: &str,
    mut names: Vec<String>,
) -> Result<String> {
    names.sort()?;
    let mut text = String::new(alloc);
    for name in names {
        if !text.is_empty() {
            text.push_str(", ")?;
        }
        let path = format!(in alloc; "{folder}{name}")?;
        let bytes = files.bytes_of(path.as_str()).unwrap_or(&[]);
        let told = digits(alloc, bytes)?;
        text.push_str(name.as_str())?;
        text.push_str(" ")?;
        text.push_str(told.as_str())?;
    }
    Ok(text)
}

/// The digits of bytes, or their number where they are many.
pub(crate) fn digits(alloc: Global, bytes: &[u8]) -> Result<String> {
    if bytes.len() > MOST_DIGITS {
        let number = bytes.len();
        return Ok(format!(in alloc; "{number} bytes")?);
    }
    Ok(hex::encode(alloc, bytes)?)
}
