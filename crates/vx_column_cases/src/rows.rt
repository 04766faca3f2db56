// Tables of calls as JSON: a list of rows, each of which names a call and holds its arguments and the answer that is wanted.
use crate::errors::CaseError;
use crate::owning::beside;
use crate::{columns, numbers, words};
use serde_json::Value;
use std::alloc::Global;
use vx_dtype::Mem;

/// The crate whose calls the rows of a table ask.
#[derive(Clone, Copy)]
pub(crate) enum Rows {
    /// Words of bits and lists of truths.
    Words,
    /// Lists of integers.
    Numbers,
    /// Columns.
    Columns,
}

/// How the rows of a table came out: how many answers agreed, and a line for each that didn't.
#[derive(Drop)]
pub(crate) struct Tried {
    pub(crate) agreed: u64,
    pub(crate) differences: Vec<String>,
}

/// Tries each row of a table.
pub(crate) fn try_rows(alloc: Global, text: &str, rows: Rows) -> Result<Tried, CaseError> {
    let table = Value::from_str(alloc, text)?;
    let tried = tried_rows(alloc, list_of(Some(&table)), rows);
    drop(table);
    tried
}

/// How rows come out.
fn tried_rows(alloc: Global, table: &[Value], rows: Rows) -> Result<Tried, CaseError> {
    let mut tried = Tried {
        agreed: 0,
        differences: Vec::new(alloc),
    };
    let done = try_all(alloc, table, rows, &mut tried);
    let (tried, ()) = beside(tried, done)?;
    Ok(tried)
}

/// Tries each of rows.
fn try_all(alloc: Global, table: &[Value], rows: Rows, tried: &mut Tried) -> Result<(), CaseError> {
    for row in table {
        try_row(alloc, row, rows, tried)?;
    }
    Ok(())
}

/// Tries a row.
fn try_row(alloc: Global, row: &Value, rows: Rows, tried: &mut Tried) -> Result<(), CaseError> {
    let found = answer_to(alloc, row, rows)?;
    let want = text_in(row, "want");
    if found.as_str() == want {
        tried.agreed = tried.agreed.saturating_add(1);
        return Ok(());
    }
    tried
        .differences
        .push(difference(alloc, row, found, want)?)?;
    Ok(())
}

/// A line for a row whose answer differs.
fn difference(alloc: Global, row: &Value, found: String, want: &str) -> Mem<String> {
    let call = row.to_string(alloc)?;
    Ok(format!(in alloc; "{found} in place of {want}: {call}")?)
}

/// The answer to the call of a row, as a text.
fn answer_to(alloc: Global, row: &Value, rows: Rows) -> Result<String, CaseError> {
    match rows {
        Rows::Words => words::answer(alloc, row),
        Rows::Numbers => numbers::answer(alloc, row),
        Rows::Columns => columns::answer(alloc, row),
    }
}

/// A member that is a text, empty where it is none.
pub(crate) fn text_in<'a>(row: &'a Value, name: &str) -> &'a str {
    row.get(name).and_then(Value::as_str).unwrap_or("")
}

/// The elements of a list, none where it is no list.
fn list_of(value: Option<&Value>) -> &[Value] {
    match value.and_then(Value::as_array) {
        Some(values) => values.as_slice(),
        None => &[],
    }
}

/// A member that is a list, empty where it is none.
pub(crate) fn list_in<'a>(row: &'a Value, name: &str) -> &'a [Value] {
    list_of(row.get(name))
}

/// A whole number of 64 bits, none where the value is null or none such.
pub(crate) fn number_of(value: &Value) -> Option<i128> {
    match value.as_i64() {
        Some(number) => Some(number as i128),
        None => value.as_u64().map(|number| number as i128),
    }
}
