// What a text of CSV is, as a text.
use crate::errors::CaseError;
use crate::rows::{bytes_in, maybe_text_in, number_in, text_in};
use serde_json::Value;
use std::alloc::Global;
use vx_column::ColumnRef;
use vx_csv::{CsvError, CsvRefusal, CsvTable, table_of_csv, typed_table_of_csv};
use vx_dtype::{DType, Mem, StructFields};
use vx_expr::LiteralExpr;
use vx_text::read_query;

/// The answer to a row: the table's type and its blocks, or the refusal.
pub(crate) fn answer(alloc: Global, row: &Value) -> Result<String, CaseError> {
    match table_in(alloc, row)? {
        Ok(table) => Ok(table_text(alloc, &table)?),
        Err(CsvError::NoMemory) => Err(CaseError::NoMemory),
        Err(CsvError::Refused(refusal)) => Ok(refusal_text(alloc, &refusal)?),
    }
}

/// The table of a row's text, with types that are found or at the columns that the row gives.
fn table_in(alloc: Global, row: &Value) -> Result<Result<CsvTable, CsvError>, CaseError> {
    let text = bytes_in(alloc, row, "csv")?;
    match maybe_text_in(row, "columns") {
        Some(columns) => typed(alloc, row, text.as_slice(), columns),
        None => Ok(found(alloc, row, text.as_slice())),
    }
}

/// The table with types that are found.
fn found(alloc: Global, row: &Value, text: &[u8]) -> Result<CsvTable, CsvError> {
    let size = number_in(row, "size");
    if size == 0 {
        return Err(CsvError::NoMemory);
    }
    table_of_csv(
        alloc,
        text,
        text_in(row, "null"),
        size,
        number_in(row, "most"),
    )
}

/// The table at columns.
fn typed(
    alloc: Global,
    row: &Value,
    text: &[u8],
    columns: &str,
) -> Result<Result<CsvTable, CsvError>, CaseError> {
    let size = number_in(row, "size");
    if size == 0 {
        return Err(CaseError::NoColumns);
    }
    let fields = fields_in(alloc, columns)?;
    let most = number_in(row, "most");
    Ok(typed_table_of_csv(alloc, text, &fields, text_in(row, "null"), size, most))
}

/// Columns, as a query writes the struct of them: those of the elements of an empty list.
fn fields_in(alloc: Global, columns: &str) -> Result<StructFields, CaseError> {
    let query = format!(in alloc; "lit(list({columns}), [])")?;
    let expr = read_query(alloc, query.as_str())?;
    match LiteralExpr::maybe_from(&expr) {
        Some(literal) => element_fields(literal.value().dtype()),
        None => Err(CaseError::NoColumns),
    }
}

/// The fields of the elements of lists of structs.
fn element_fields(dtype: &DType) -> Result<StructFields, CaseError> {
    match dtype {
        DType::List(element, _) => match element.dtype() {
            DType::Struct(fields, _) => Ok(fields.clone()?),
            _ => Err(CaseError::NoColumns),
        },
        _ => Err(CaseError::NoColumns),
    }
}

/// A table: the type of its rows, and each block by its number of rows and the values of each column.
fn table_text(alloc: Global, table: &CsvTable) -> Mem<String> {
    let mut text = format!(in alloc; "{}", table.zones.dtype())?;
    for block in table.blocks.iter() {
        text.push_str(" /")?;
        for column in block.iter() {
            push_column(alloc, column, &mut text)?;
        }
    }
    for length in table.zones.lengths() {
        let number = format!(in alloc; " {length}")?;
        text.push_str(number.as_str())?;
    }
    Ok(text)
}

/// The values of a column behind a text.
fn push_column(alloc: Global, column: &ColumnRef, text: &mut String) -> Mem<()> {
    text.push_str(" [")?;
    for i in 0..column.len() {
        let value = column.scalar_at(alloc, i)?;
        let shown = format!(in alloc; " {value}")?;
        text.push_str(shown.as_str())?;
    }
    Ok(text.push_str(" ]")?)
}

/// A refusal by its name, with its numbers.
fn refusal_text(alloc: Global, refusal: &CsvRefusal) -> Mem<String> {
    Ok(match refusal {
        CsvRefusal::QuoteLeftOpen => String::from_str(alloc, "QuoteLeftOpen")?,
        CsvRefusal::NoHeader => String::from_str(alloc, "NoHeader")?,
        CsvRefusal::NotText { row, column } => format!(in alloc; "NotText {row} {column}")?,
        CsvRefusal::NameTwice => String::from_str(alloc, "NameTwice")?,
        CsvRefusal::OtherLength { row, cells, names } => {
            format!(in alloc; "OtherLength {row} {cells} {names}")?
        }
        CsvRefusal::TooManyRows { rows } => format!(in alloc; "TooManyRows {rows}")?,
        CsvRefusal::OtherNames => String::from_str(alloc, "OtherNames")?,
        CsvRefusal::NotPlain { column, dtype } => format!(in alloc; "NotPlain {column} {dtype}")?,
        CsvRefusal::BadCell {
            row,
            column,
            cell,
            dtype,
        } => {
            let bytes = hex::encode(alloc, cell.as_slice())?;
            format!(in alloc; "BadCell {row} {column} {bytes} {dtype}")?
        }
    })
}
