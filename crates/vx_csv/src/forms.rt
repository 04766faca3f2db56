// The form of a text's records: a first line of names, and rows that are as long.
ghost use Rattle.std.specs.Prelude.{◌≡◌, true, map, IfOk, option_map};
ghost use Rattle.std.specs.List.{list_all};
ghost use Rattle.std.specs.Str.{is_utf8};
ghost use Rattle.csv.specs.Records.{fields_of};
ghost use Rattle.vx_laws_csv.specs.CsvTables.{names_in};
ghost use Rattle.vx_laws_csv.specs.Sheets as spec;
ghost use Rattle.vx_csv.specs.Views.{AnswersBy, refusal_view};

use crate::cells::{cell_at, is_text};
use crate::errors::{CsvError, CsvRefusal};
use csv::ByteRecord;
use std::alloc::Global;
use std::str;
use vx_dtype::{FieldName, Mem};

/// The first cell of a row that isn't UTF-8.
fn text_refusal(row: usize, line: &ByteRecord) -> Option<CsvRefusal>
    ensures { option_map refusal_view result ≡ spec.text_refusal row 1 (fields_of line.now) }
{
    for i in 0..line.len() {
        if !is_text(cell_at(line, i)) {
            return Some(CsvRefusal::NotText { row, column: i + 1 });
        }
    }
    None
}

/// Why a row is none of a table of so many columns.
fn row_refusal(width: usize, row: usize, line: &ByteRecord) -> Option<CsvRefusal>
    ensures { option_map refusal_view result ≡ spec.row_refusal width row (fields_of line.now) }
{
    let cells = line.len();
    if cells != width {
        return Some(CsvRefusal::OtherLength {
            row,
            cells,
            names: width,
        });
    }
    text_refusal(row, line)
}

/// Why rows are none of a table of so many columns, the first of them in their order.
fn rows_refusal(width: usize, rows: &[ByteRecord]) -> Option<CsvRefusal>
    ensures { option_map refusal_view result ≡ spec.rows_refusal width 1 (map fields_of rows.now) }
{
    for i in 0..rows.len() {
        if let Some(refusal) = row_refusal(width, i + 1, &rows[i]) {
            return Some(refusal);
        }
    }
    None
}

/// A cell as a name.
fn name_of(alloc: Global, cell: &[u8]) -> Mem<FieldName>
    requires { is_utf8 cell.now ≡ true }
    ensures { IfOk result (λ name. name ≡ cell.now) }
{
    match str::from_utf8(cell) {
        Ok(name) => FieldName::new(alloc, name),
        Err(_) => unreachable!(),
    }
}

/// The cells of a record as names.
fn names_of(alloc: Global, line: &ByteRecord) -> Mem<Vec<FieldName>>
    requires { list_all is_utf8 (fields_of line.now) ≡ true }
    ensures { IfOk result (λ names. names.items ≡ fields_of line.now) }
{
    let mut names = Vec::with_capacity(alloc, line.len())?;
    for i in 0..line.len() {
        names.push(name_of(alloc, cell_at(line, i))?)?;
    }
    Ok(names)
}

/// The names of a first line, where it and the rows behind it are a table's.
pub(crate) fn names_in(
    alloc: Global,
    header: &ByteRecord,
    rows: &[ByteRecord],
) -> Result<Vec<FieldName>, CsvError>
    ensures { AnswersBy (λ names. names.items) (names_in (fields_of header.now) (map fields_of rows.now)) result }
{
    if let Some(refusal) = text_refusal(0, header) {
        return Err(CsvError::Refused(refusal));
    }
    let names = names_of(alloc, header)?;
    if !FieldName::are_distinct(alloc, names.as_slice())? {
        return Err(CsvError::Refused(CsvRefusal::NameTwice));
    }
    match rows_refusal(names.len(), rows) {
        Some(refusal) => Err(CsvError::Refused(refusal)),
        None => Ok(names),
    }
}
