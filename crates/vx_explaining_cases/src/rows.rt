// The table as JSON: a list of rows, each of which holds words, the ends of a run, and what is wanted of it.
use crate::runs::{Ended, run};
use anyhow::Result;
use serde_json::Value;
use std::alloc::Global;

/// How the rows came out: how many answers agreed, and a line for each that didn't.
#[derive(Drop)]
pub(crate) struct Tried {
    pub(crate) agreed: u64,
    pub(crate) differences: Vec<String>,
}

/// Tries each row of a table.
pub(crate) fn try_rows(alloc: Global, text: &str) -> Result<Tried> {
    let table = Value::from_str(alloc, text)?;
    let mut tried = Tried {
        agreed: 0,
        differences: Vec::new(alloc),
    };
    for row in list_of(Some(&table)) {
        match difference(alloc, row)? {
            None => tried.agreed = tried.agreed.saturating_add(1),
            Some(line) => tried.differences.push(line)?,
        }
    }
    Ok(tried)
}

/// What a run came to, where that isn't what its row says.
fn difference(alloc: Global, row: &Value) -> Result<Option<String>> {
    let ended = run(alloc, row)?;
    if is_wanted(row, &ended) {
        return Ok(None);
    }
    let name = text_in(row, "name");
    let Ended {
        status,
        output,
        errors,
    } = ended;
    Ok(Some(format!(in alloc; "{name}: status {status}, output {output:?}, errors {errors:?}")?))
}

/// Whether a run came to what its row says.
fn is_wanted(row: &Value, ended: &Ended) -> bool {
    if number_in(row, "status") != ended.status as u64 {
        return false;
    }
    if text_in(row, "output") != ended.output.as_str() {
        return false;
    }
    text_in(row, "errors") == ended.errors.as_str()
}

/// A member that is a text, empty where it is none.
pub(crate) fn text_in<'a>(row: &'a Value, name: &str) -> &'a str {
    row.get(name).and_then(Value::as_str).unwrap_or("")
}

/// A member that is a whole number, 0 where it is none.
pub(crate) fn number_in(row: &Value, name: &str) -> u64 {
    row.get(name).and_then(Value::as_u64).unwrap_or(0)
}

/// The elements of a list, none where it is no list.
pub(crate) fn list_of(value: Option<&Value>) -> &[Value] {
    match value.and_then(Value::as_array) {
        Some(values) => values.as_slice(),
        None => &[],
    }
}

/// A text of its own.
pub(crate) fn owned(alloc: Global, text: &str) -> Result<String> {
    Ok(String::from_str(alloc, text)?)
}
