// Calls on columns. A row tells the columns in words: each is a call with its values, or a call of columns that are told within.
ghost use Rattle.std.specs.Prelude.{◌≡◌, ◌<◌, length};
ghost use Rattle.vx_dtype.specs.TypeRules.{is_bool_ty};

use crate::column_calls::all_made;
use crate::errors::CaseError;
use crate::rows::text_in;
use serde_json::Value;
use std::alloc::Global;
use std::hash::{DefaultHasher, Hash, Hasher};
use vx_column::ColumnRef;
use vx_display::push_row;
use vx_dtype::{Mem, Scalar};
use vx_typing::is_bool;

/// The levels that the words of a row may have.
const MOST_LEVELS: usize = 8;

/// The answer to the call of a row, as a text.
pub(crate) fn answer(alloc: Global, row: &Value) -> Result<String, CaseError> {
    match asked(alloc, row) {
        Ok(text) => Ok(text),
        Err(CaseError::NoMemory) => Err(CaseError::NoMemory),
        Err(error) => Ok(format!(in alloc; "{error}")?),
    }
}

/// What a row asks of its columns.
fn asked(alloc: Global, row: &Value) -> Result<String, CaseError> {
    let columns = all_made(alloc, MOST_LEVELS, row)?;
    let call = text_in(row, "call");
    match columns.as_slice() {
        [column] => of_column(alloc, call, column),
        [left, right] if call == "same" => Ok(String::from_str(alloc, likeness(left, right))?),
        _ => Err(CaseError::NotAsked),
    }
}

/// What a row asks of one column.
fn of_column(alloc: Global, call: &str, column: &ColumnRef) -> Result<String, CaseError> {
    match call {
        "rows" => Ok(typed_text(alloc, column)?),
        "valid" => Ok(validity(alloc, column)?),
        "true_count" => true_rows(alloc, column),
        _ => Err(CaseError::NotAsked),
    }
}

/// The type of a column and the values of its rows.
fn typed_text(alloc: Global, column: &ColumnRef) -> Mem<String> {
    let rows = column_text(alloc, column)?;
    Ok(format!(in alloc; "{}: {rows}", column.dtype())?)
}

/// The values of a column with ` / ` between.
fn column_text(alloc: Global, column: &ColumnRef) -> Mem<String> {
    let mut text = String::new(alloc);
    for i in 0..column.len() {
        push_row_text(&mut text, i > 0, column.scalar_at(alloc, i)?)?;
    }
    Ok(text)
}

/// Adds a value, which is let go, behind ` / ` where others stand before it.
fn push_row_text(text: &mut String, is_behind: bool, scalar: Scalar) -> Mem<()> {
    let pushed = push_separated(text, is_behind, &scalar);
    drop(scalar);
    pushed
}

/// Adds a value, behind ` / ` where others stand before it.
fn push_separated(text: &mut String, is_behind: bool, scalar: &Scalar) -> Mem<()> {
    text.push_str(if is_behind { " / " } else { "" })?;
    push_row(text, scalar.dtype(), scalar.value())
}

/// Whether the value isn't null, row by row.
fn validity(alloc: Global, column: &ColumnRef) -> Mem<String> {
    let mut text = String::new(alloc);
    for i in 0..column.len() {
        text.push_str(if column.is_valid(i) { "+" } else { "-" })?;
    }
    Ok(text)
}

/// At how many rows a boolean column is true.
fn true_rows(alloc: Global, column: &ColumnRef) -> Result<String, CaseError> {
    if !is_bool(column.dtype()) {
        return Err(CaseError::NotAsked);
    }
    Ok(format!(in alloc; "{}", column.true_count())?)
}

/// Whether two columns are equal, each way round, and hash equally, or differ, each way round.
fn likeness(left: &ColumnRef, right: &ColumnRef) -> &'static str {
    match (
        left == right,
        right == left,
        hash_of(left) == hash_of(right),
    ) {
        (true, true, true) => "equal",
        (true, true, false) => "equal, with other hashes",
        (false, false, _) => "different",
        _ => "equal one way round",
    }
}

/// The hash of a column.
fn hash_of(column: &ColumnRef) -> u64 {
    let mut state = DefaultHasher::new();
    column.hash(&mut state);
    state.finish()
}
