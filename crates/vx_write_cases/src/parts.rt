// The files of the parts of a table, each of at most so many rows.
ghost use Rattle.vx_laws_writing.specs.WriteLaws.{Cuts};

use crate::kept::digits;
use crate::rows::{number_in, text_in};
use crate::runs::Ended;
use serde_json::Value;
use std::alloc::Global;
use vx_request::decode_table;
use vx_writing::{Refusal, files_of_table};

/// The most rows of a block.
const MOST_ROWS: u64 = 1_048_576;

/// What the table of a row comes to: the digits of its files, or its refusal on standard error.
pub(crate) fn parts(alloc: Global, row: &Value) -> anyhow::Result<Ended> {
    match files_in(alloc, row) {
        Ok(files) => filed(alloc, files),
        Err(refusal) => refused(alloc, refusal),
    }
}

/// The files of the table of a row.
fn files_in(alloc: Global, row: &Value) -> Result<Vec<Vec<u8>>, Refusal> {
    let most = number_in(row, "most").min(MOST_ROWS) as u32;
    files_of_text(alloc, most, rows_in(row), text_in(row, "input"))
}

/// The files of the table that a text tells.
fn files_of_text(
    alloc: Global,
    most: u32,
    rows: Option<u32>,
    text: &str,
) -> Result<Vec<Vec<u8>>, Refusal>
    requires { Cuts rows }
{
    match decode_table(alloc, text.as_bytes()) {
        Ok(told) => files_of_table(alloc, most, rows, told),
        Err(error) => Err(Refusal::from(error)),
    }
}

/// The rows of the blocks that the table of a row is cut into, where it is.
fn rows_in(row: &Value) -> Option<u32>
    ensures { Cuts result }
{
    let rows = number_in(row, "rows");
    if rows == 0 {
        return None;
    }
    if rows > MOST_ROWS {
        return None;
    }
    Some(rows as u32)
}

/// Files that were made.
fn filed(alloc: Global, files: Vec<Vec<u8>>) -> anyhow::Result<Ended> {
    let mut kept = String::new(alloc);
    for bytes in files {
        if !kept.is_empty() {
            kept.push_str("; ")?;
        }
        let told = digits(alloc, bytes.as_slice())?;
        kept.push_str(told.as_str())?;
    }
    Ok(Ended {
        status: 0,
        errors: String::new(alloc),
        kept,
    })
}

/// A table without files.
fn refused(alloc: Global, refusal: Refusal) -> anyhow::Result<Ended> {
    Ok(Ended {
        status: 3,
        errors: format!(in alloc; "{refusal:?}")?,
        kept: String::from_str(alloc, "-")?,
    })
}
