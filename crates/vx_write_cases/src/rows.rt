// The table as JSON: a list of rows, each of which holds words, the ends of a run, and what is wanted of it.
use crate::parts::parts;
use crate::runs::{Ended, run};
use anyhow::Result;
use serde_json::Value;
use std::alloc::Global;

/// How the rows came out: how many answers agreed, and a line for each that didn't.
#[derive(Drop)]
pub(crate) struct Tried {
    pub(crate) agreed: u64,
    pub(crate) differences: Vec<String>,
}

/// Tries each row of a table.
pub(crate) fn try_rows(alloc: Global, text: &str) -> Result<Tried> {
    let table = Value::from_str(alloc, text)?;
    let mut tried = Tried {
        agreed: 0,
        differences: Vec::new(alloc),
    };
    for row in list_of(Some(&table)) {
        match difference(alloc, row)? {
            None => tried.agreed = tried.agreed.saturating_add(1),
            Some(line) => tried.differences.push(line)?,
        }
    }
    Ok(tried)
}

/// What a row comes to: the files of parts where it has the most rows of one, and else a run of its words.
fn ended_of(alloc: Global, row: &Value) -> Result<Ended> {
    match number_in(row, "most") {
        0 => run(alloc, row),
        _ => parts(alloc, row),
    }
}

/// What a row came to, where that isn't what its row says.
fn difference(alloc: Global, row: &Value) -> Result<Option<String>> {
    let ended = ended_of(alloc, row)?;
    if is_wanted(row, &ended) {
        return Ok(None);
    }
    let name = text_in(row, "name");
    let Ended {
        status,
        errors,
        kept,
    } = ended;
    Ok(Some(format!(in alloc; "{name}: status {status}, errors {errors:?}, kept {kept}")?))
}

/// Whether a row came to what its row says.
fn is_wanted(row: &Value, ended: &Ended) -> bool {
    if number_in(row, "status") != ended.status as u64 {
        return false;
    }
    if text_in(row, "kept") != ended.kept.as_str() {
        return false;
    }
    text_in(row, "errors") == ended.errors.as_str()
}

/// A member that is a text, empty where it is none.
pub(crate) fn text_in<'a>(row: &'a Value, name: &str) -> &'a str {
    row.get(name).and_then(Value::as_str).unwrap_or("")
}

/// A member that is a whole number, 0 where it is none.
pub(crate) fn number_in(row: &Value, name: &str) -> u64 {
    row.get(name).and_then(Value::as_u64).unwrap_or(0)
}

/// Whether a member is true.
pub(crate) fn is_set(row: &Value, name: &str) -> bool {
    row.get(name).and_then(Value::as_bool) == Some(true)
}

/// The elements of a list, none where it is no list.
pub(crate) fn list_of(value: Option<&Value>) -> &[Value] {
    match value.and_then(Value::as_array) {
        Some(values) => values.as_slice(),
        None => &[],
    }
}

/// A text of its own.
pub(crate) fn owned(alloc: Global, text: &str) -> Result<String> {
    Ok(String::from_str(alloc, text)?)
}
