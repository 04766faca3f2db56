// The columns and words that kernels are called on.
use anyhow::{Result, bail};
use std::alloc::Global;
use vx_column::ColumnRef;
use vx_dtype::Nullability::{NonNullable, Nullable};
use vx_dtype::{FieldName, FieldNames, Mem, PType, ScalarValue};

/// Bits for a place that look like those of chance, so that a processor foresees no branch by them.
pub(crate) fn mixed(place: usize) -> u64 {
    (place as u64).wrapping_mul(0x9E37_79B9_7F4A_7C15)
}

/// A number from 0 to 99.
fn number(place: usize) -> i128 {
    i128::from((mixed(place) >> 40) % 100)
}

/// A truth: null at an eighth of the places.
fn truth(place: usize) -> Option<bool> {
    match (mixed(place) >> 40) % 8 {
        0 => None,
        1 | 3 | 5 | 7 => Some(true),
        _ => Some(false),
    }
}

/// So many numbers: those from a place on.
fn number_values(alloc: Global, rows: usize, from: usize) -> Mem<Vec<Option<i128>>> {
    let mut values = Vec::with_capacity(alloc, rows)?;
    for i in 0..rows {
        values.push(Some(number(from.wrapping_add(i))))?;
    }
    Ok(values)
}

/// So many numbers of i64, without nulls: those from a place on.
pub(crate) fn numbers(alloc: Global, rows: usize, from: usize) -> Result<ColumnRef> {
    let values = number_values(alloc, rows, from)?;
    match ColumnRef::primitive(alloc, PType::I64, values, NonNullable) {
        Ok(column) => Ok(column),
        Err(_) => bail!("no numbers"),
    }
}

/// So many truths: those from a place on.
fn truth_values(alloc: Global, rows: usize, from: usize) -> Mem<Vec<Option<bool>>> {
    let mut values = Vec::with_capacity(alloc, rows)?;
    for i in 0..rows {
        values.push(truth(from.wrapping_add(i)))?;
    }
    Ok(values)
}

/// So many truths, with nulls: those from a place on.
pub(crate) fn truths(alloc: Global, rows: usize, from: usize) -> Result<ColumnRef> {
    let values = truth_values(alloc, rows, from)?;
    match ColumnRef::bool(alloc, values, Nullable) {
        Ok(column) => Ok(column),
        Err(_) => bail!("no truths"),
    }
}

/// Two fields' names.
fn names(alloc: Global) -> Mem<FieldNames> {
    let names = vec![in alloc; FieldName::new(alloc, "x")?, FieldName::new(alloc, "y")?]?;
    FieldNames::new(alloc, names)
}

/// The two fields: so many numbers and so many truths.
fn fields(alloc: Global, rows: usize) -> Result<Vec<ColumnRef>> {
    Ok(vec![in alloc; numbers(alloc, rows, 0)?, truths(alloc, rows, 0)?]?)
}

/// So many structs of a number and a truth.
pub(crate) fn structs(alloc: Global, rows: usize) -> Result<ColumnRef> {
    let names = names(alloc)?;
    match ColumnRef::struct_(alloc, names, fields(alloc, rows)?, rows, None) {
        Ok(column) => Ok(column),
        Err(_) => bail!("no structs"),
    }
}

/// The values of a column, as they come in.
fn values(alloc: Global, column: &ColumnRef) -> Mem<Vec<ScalarValue>> {
    let mut values = Vec::new(alloc);
    column.append_to(alloc, &mut values)?;
    Ok(values)
}

/// So many structs of a number and a truth, which come in as values.
pub(crate) fn structs_of_values(alloc: Global, rows: usize) -> Result<ColumnRef> {
    let column = structs(alloc, rows)?;
    let dtype = column.dtype().clone()?;
    match ColumnRef::of_values(alloc, dtype, values(alloc, &column)?) {
        Ok(column) => Ok(column),
        Err(_) => bail!("no structs of values"),
    }
}
