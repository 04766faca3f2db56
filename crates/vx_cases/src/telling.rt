// Tables that inputs tell.
use crate::answers::column_text;
use crate::errors::CaseError;
use crate::tables::Case;
use std::alloc::Global;
use vx_column::ColumnRef;
use vx_display::push_row;
use vx_dtype::Mem;
use vx_request::{RequestError, ToldTable, decode_table};
use vx_zones::ZoneColumn;

/// The table that the input of a case tells, or its refusal.
pub(crate) fn table_of(alloc: Global, case: &Case<'_>) -> Result<String, CaseError> {
    match decode_table(alloc, case.request.as_bytes()) {
        Ok(table) => Ok(table_text(alloc, &table)?),
        Err(RequestError::NoMemory) => Err(CaseError::NoMemory),
        Err(error) => Ok(format!(in alloc; "{error:?}")?),
    }
}

/// The type of a table's rows, each block with the values of its columns, and each statistic with its values.
fn table_text(alloc: Global, table: &ToldTable) -> Mem<String> {
    let mut text = format!(in alloc; "{}", table.zones.dtype())?;
    for (place, rows) in table.zones.lengths().iter().enumerate() {
        text.push_str(format!(in alloc; " rows {rows}")?.as_str())?;
        if let Some(columns) = table.blocks.get(place) {
            push_columns(alloc, &mut text, columns.as_slice())?;
        }
    }
    for stat in table.zones.statistics() {
        push_stat(alloc, &mut text, stat)?;
    }
    Ok(text)
}

/// Adds the values of columns.
fn push_columns(alloc: Global, text: &mut String, columns: &[ColumnRef]) -> Mem<()> {
    for column in columns {
        let values = column_text(alloc, column)?;
        text.push_str(format!(in alloc; " ({values})")?.as_str())?;
    }
    Ok(())
}

/// Adds the joined name and the values of a statistic.
fn push_stat(alloc: Global, text: &mut String, stat: &ZoneColumn) -> Mem<()> {
    text.push_str(format!(in alloc; " {}", stat.name())?.as_str())?;
    for block in 0..stat.blocks() {
        let value = stat.scalar_at(alloc, block)?;
        text.push_str(" ")?;
        push_row(text, value.dtype(), value.value())?;
    }
    Ok(())
}
