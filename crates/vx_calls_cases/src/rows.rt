// The table as JSON: a list of rows, each of which holds a call, and what is wanted of it: a status, and bytes as a text or as hexadecimal digits.
use crate::calls::answered;
use crate::inputs::{bytes_in, list_of, number_in, text_in};
use anyhow::Result;
use serde_json::Value;
use std::alloc::Global;
use vx_calls::Answer;

/// How the rows came out: how many answers agreed, and a line for each that didn't.
#[derive(Drop)]
pub(crate) struct Tried {
    pub(crate) agreed: u64,
    pub(crate) differences: Vec<String>,
}

/// Tries each row of a table.
pub(crate) fn try_rows(alloc: Global, text: &str) -> Result<Tried> {
    let table = Value::from_str(alloc, text)?;
    let mut tried = Tried {
        agreed: 0,
        differences: Vec::new(alloc),
    };
    for row in list_of(Some(&table)) {
        match difference(alloc, row)? {
            None => tried.agreed = tried.agreed.saturating_add(1),
            Some(line) => tried.differences.push(line)?,
        }
    }
    Ok(tried)
}

/// What a call answers, where that isn't what its row says.
fn difference(alloc: Global, row: &Value) -> Result<Option<String>> {
    let answer = answered(alloc, row)?;
    let wanted = bytes_in(alloc, row, "text", "digits")?;
    if is_wanted(row, &answer, wanted.as_slice()) {
        return Ok(None);
    }
    Ok(Some(line(alloc, text_in(row, "name"), &answer)?))
}

/// Whether an answer has the status of its row, and these bytes.
fn is_wanted(row: &Value, answer: &Answer, wanted: &[u8]) -> bool {
    if number_in(row, "status") != u64::from(answer.status) {
        return false;
    }
    wanted == answer.bytes.as_slice()
}

/// The line of an answer that differs: its status, and its bytes as digits and as a text.
fn line(alloc: Global, name: &str, answer: &Answer) -> Result<String> {
    let digits = hex::encode(alloc, answer.bytes.as_slice())?;
    let text = str::from_utf8(answer.bytes.as_slice()).unwrap_or("");
    let status = answer.status;
    Ok(format!(in alloc; "{name}: status {status}, digits {digits}, text {text:?}")?)
}
