// Why a text of CSV is no table, as it is told: rows are counted from 1 behind the line of names, which is row 0, and columns from 1.
use std::alloc::Global;
use vx_csv::CsvRefusal;
use vx_dtype::{DType, Mem};

/// The name of a plain type.
fn type_name(dtype: &DType) -> &'static str {
    match dtype {
        DType::Bool(_) => "bool",
        DType::Primitive(ptype, _) => ptype.name(),
        DType::Utf8(_) => "utf8",
        DType::List(_, _) => "list",
        DType::Struct(_, _) => "struct",
    }
}

/// A cell that is no value of its column's type.
fn cell_line(alloc: Global, row: usize, column: usize, cell: &[u8], dtype: &DType) -> Mem<String> {
    let cell = str::from_utf8(cell).unwrap_or("");
    let name = type_name(dtype);
    Ok(format!(in alloc; "row {row}, column {column}: {cell:?} is no {name}")?)
}

/// What is told of a refusal.
pub(crate) fn refusal_line(alloc: Global, refusal: &CsvRefusal) -> Mem<String> {
    match refusal {
        CsvRefusal::QuoteLeftOpen => fixed(alloc, "a quote is left open"),
        CsvRefusal::NoHeader => fixed(alloc, "there is no line of names"),
        CsvRefusal::NameTwice => fixed(alloc, "a name stands twice"),
        CsvRefusal::OtherNames => fixed(alloc, "the names aren't those of --types"),
        CsvRefusal::NotText { row, column } => {
            Ok(format!(in alloc; "row {row}, column {column} isn't UTF-8")?)
        }
        CsvRefusal::OtherLength { row, cells, names } => {
            Ok(format!(in alloc; "row {row} has {cells} cells, and there are {names} names")?)
        }
        CsvRefusal::TooManyRows { rows } => {
            Ok(format!(in alloc; "there are {rows} rows, more than 1048576")?)
        }
        CsvRefusal::NotPlain { column, dtype: _ } => {
            Ok(format!(in alloc; "column {column} is of no plain type")?)
        }
        CsvRefusal::BadCell {
            row,
            column,
            cell,
            dtype,
        } => cell_line(alloc, *row, *column, cell.as_slice(), dtype),
    }
}

/// A line that tells no place.
fn fixed(alloc: Global, line: &str) -> Mem<String> {
    Ok(String::from_str(alloc, line)?)
}
