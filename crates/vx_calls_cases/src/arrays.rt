// The columns of arrays, by the columns of a schema.
use std::alloc::Global;
use vx_arrays::columns_of_arrays;
use vx_calls::CallError;
use vx_column::ColumnRef;
use vx_dtype::{DType, Mem};
use vx_request::decode_table;
use vx_tables::columns_of;

/// The columns of arrays as a text, of the types of the columns of a schema.
pub(crate) fn columns_told(
    alloc: Global,
    schema: &[u8],
    rows: usize,
    body: &[u8],
    buffers: &[u64],
) -> Result<Vec<u8>, CallError> {
    match decode_table(alloc, schema) {
        Ok(told) => typed_columns(alloc, columns_of(&told.zones).dtypes(), rows, body, buffers),
        Err(refusal) => Err(CallError::from(refusal)),
    }
}

/// The columns of arrays as a text, of these types.
fn typed_columns(
    alloc: Global,
    types: &[DType],
    rows: usize,
    body: &[u8],
    buffers: &[u64],
) -> Result<Vec<u8>, CallError> {
    match columns_of_arrays(alloc, types, rows, body, buffers) {
        Ok(columns) => Ok(values_text(alloc, columns.as_slice())?.into_bytes()),
        Err(refusal) => Err(CallError::from(refusal)),
    }
}

/// The values of columns, each column's within brackets.
fn values_text(alloc: Global, columns: &[ColumnRef]) -> Mem<String> {
    let mut text = String::new(alloc);
    for column in columns {
        push_column(alloc, column, &mut text)?;
    }
    Ok(text)
}

/// The values of a column behind a text.
fn push_column(alloc: Global, column: &ColumnRef, text: &mut String) -> Mem<()> {
    text.push_str("[")?;
    for i in 0..column.len() {
        let value = column.scalar_at(alloc, i)?;
        let shown = format!(in alloc; " {value}")?;
        text.push_str(shown.as_str())?;
    }
    Ok(text.push_str(" ]")?)
}
