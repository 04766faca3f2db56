// The table of a text.
ghost use Rattle.std.specs.Prelude.{◌≡◌, ◌^◌, ◌<◌, true, [], ◌∷◌, map, length, Ok, None, IfOk, option_map};
ghost use Rattle.std.specs.List.{list_all};
ghost use Rattle.csv.specs.Records.{fields_of};
ghost use Rattle.vx_dtype.specs.StructTypes.{field_types};
ghost use Rattle.vx_dtype.specs.TypeRules.{distinct_names, field_names, is_plain};
ghost use Rattle.vx_dtype.specs.TypeViews.{type_view};
ghost use Rattle.vx_semantics.specs.Tables.{Zones, row_type};
ghost use Rattle.vx_zones.specs.Zoning.{broken_rule};
ghost use Rattle.vx_zones.specs.ZoneViews.{zones_with};
ghost use Rattle.vx_zones.specs.ZoneAnswers.{MakesZones};
ghost use Rattle.vx_laws_csv.specs.Sheets.{are_texts};
ghost use Rattle.vx_laws_csv.specs.CsvTables as spec;
ghost use Rattle.vx_csv.specs.Views.{AnswersBy, refusal_view, table_view};

use crate::columns::{Blocks, blocks_of};
use crate::errors::{CsvError, CsvRefusal};
use crate::forms::names_in;
use crate::found::found_columns;
use crate::records::records_of;
use crate::values::values_refusal;
use csv::ByteRecord;
use std::alloc::Global;
use vx_column::ColumnRef;
use vx_dtype::{DType, FieldName, FieldNames, Mem, NoMemory, StructFields};
use vx_zones::{ZoneError, ZoneMap};

/// A table: its columns with the lengths of its blocks, without statistics, and the columns of each block.
#[derive(Debug, Drop)]
pub struct CsvTable {
    /// The columns, and how long each block is.
    pub zones: ZoneMap,
    /// The columns of each block.
    pub blocks: Vec<Vec<ColumnRef>>,
}

/// The zones that were made, where nothing but want of memory can be in the way.
fn sound(answer: Result<ZoneMap, ZoneError>) -> Mem<ZoneMap>
    requires { (zones : Zones) × MakesZones zones answer × (broken_rule zones ≡ None) }
    ensures { IfOk result (λ zones. answer ≡ Ok zones) }
{
    match answer {
        Ok(zones) => Ok(zones),
        Err(ZoneError::NoMemory) => Err(NoMemory),
        Err(ZoneError::DuplicateName) => unreachable!(),
        Err(ZoneError::DeepType) => unreachable!(),
        Err(ZoneError::BadStatPath) => unreachable!(),
        Err(ZoneError::DuplicateStat) => unreachable!(),
        Err(ZoneError::WrongStatCount) => unreachable!(),
        Err(ZoneError::WrongStatType) => unreachable!(),
    }
}

/// The zones of columns and blocks of these lengths, without statistics.
fn zones_of(alloc: Global, fields: StructFields, lengths: Vec<u32>) -> Mem<ZoneMap>
    requires count { length lengths.items < 2 ^ 32 }
    requires names { distinct_names (field_names fields) ≡ true }
    requires plain { list_all is_plain (field_types fields) ≡ true }
    ensures { IfOk result (λ zones. zones ≡ zones_with (row_type fields) lengths.items []) }
{
    sound(ZoneMap::try_new(alloc, fields, lengths, Vec::new(alloc)))
}

/// The table of rows at columns, in blocks of so many rows.
fn table_with(
    alloc: Global,
    null: &[u8],
    size: u32,
    fields: StructFields,
    rows: &[ByteRecord],
) -> Mem<CsvTable>
    requires size { 0 < size }
    requires count { length rows.now < 2 ^ 32 }
    requires names { distinct_names (field_names fields) ≡ true }
    requires plain { list_all is_plain (field_types fields) ≡ true }
    requires texts { are_texts (map fields_of rows.now) ≡ true }
    requires taken { spec.rows_taken null.now (field_types fields) (map fields_of rows.now) ≡ true }
    ensures { IfOk result (λ table. table_view table ≡ spec.table_with null.now size fields (map fields_of rows.now)) }
{
    let made = blocks_of(alloc, null, size, fields.dtypes(), rows)?;
    let Blocks { lengths, columns } = made;
    let zones = zones_of(alloc, fields, lengths)?;
    Ok(CsvTable {
        zones,
        blocks: columns,
    })
}

/// More rows than so many.
fn number_refusal(most: u32, rows: &[ByteRecord]) -> Option<CsvRefusal>
    ensures { option_map refusal_view result ≡ spec.number_refusal most (map fields_of rows.now) }
{
    let count = rows.len();
    if count <= most as usize {
        return None;
    }
    Some(CsvRefusal::TooManyRows { rows: count })
}

/// The table of names and the rows behind them with types that are found.
fn found_behind(
    alloc: Global,
    null: &[u8],
    size: u32,
    most: u32,
    rows: &[ByteRecord],
    names: Vec<FieldName>,
) -> Result<CsvTable, CsvError>
    requires size { 0 < size }
    requires names { distinct_names names.items ≡ true }
    requires texts { are_texts (map fields_of rows.now) ≡ true }
    ensures { AnswersBy table_view (spec.found_behind null.now size most (map fields_of rows.now) names.items) result }
{
    if let Some(refusal) = number_refusal(most, rows) {
        return Err(CsvError::Refused(refusal));
    }
    let fields = found_columns(alloc, null, names, rows)?;
    Ok(table_with(alloc, null, size, fields, rows)?)
}

/// The table of a first line and the rows behind it with types that are found.
fn found_under(
    alloc: Global,
    null: &[u8],
    size: u32,
    most: u32,
    header: &ByteRecord,
    rows: &[ByteRecord],
) -> Result<CsvTable, CsvError>
    requires { 0 < size }
    ensures { AnswersBy table_view (spec.found_in null.now size most (fields_of header.now ∷ map fields_of rows.now)) result }
{
    let names = names_in(alloc, header, rows)?;
    found_behind(alloc, null, size, most, rows, names)
}

/// The table of records with types that are found.
fn found_in(
    alloc: Global,
    null: &[u8],
    size: u32,
    most: u32,
    records: &[ByteRecord],
) -> Result<CsvTable, CsvError>
    requires { 0 < size }
    ensures { AnswersBy table_view (spec.found_in null.now size most (map fields_of records.now)) result }
{
    match records {
        [] => Err(CsvError::Refused(CsvRefusal::NoHeader)),
        [header, rows @ ..] => found_under(alloc, null, size, most, header, rows),
    }
}

/// The table of a text of CSV whose types are found from its cells: of each column `i64` where each cell that isn't null is a whole number in its range,
/// `bool` where each is `true` or `false`, else `utf8`; nullable where some cell is the null text. Its rows stand in blocks of `rows_per_block`, which isn't 0,
/// the last of which may have fewer.
///
/// The first line is the names. Cells and lines are those of the kit's reader: a mark of the byte order is skipped, a line ends with CR, LF or both, and blank
/// lines are none.
///
/// Refused with the first reason in the order of [`CsvRefusal`] where a quote is left open, there is no line of names, a cell isn't UTF-8, a name stands twice,
/// a row is of another length, or there are more rows than `most_rows`.
pub fn table_of_csv(
    alloc: Global,
    text: &[u8],
    null: &str,
    rows_per_block: u32,
    most_rows: u32,
) -> Result<CsvTable, CsvError>
    requires { 0 < rows_per_block }
    ensures { AnswersBy table_view (spec.found_table null.now rows_per_block most_rows text.now) result }
{
    let records = records_of(alloc, text)?;
    found_in(
        alloc,
        null.as_bytes(),
        rows_per_block,
        most_rows,
        records.as_slice(),
    )
}

/// Whether a type is plain.
fn is_plain(dtype: &DType) -> bool
    ensures { result ≡ is_plain (type_view dtype.now) }
{
    match dtype {
        DType::Bool(_) => true,
        DType::Primitive(_, _) => true,
        DType::Utf8(_) => true,
        DType::List(_, _) => false,
        DType::Struct(_, _) => false,
    }
}

/// The first column of no plain type.
fn plain_refusal(dtypes: &[DType]) -> Mem<Option<CsvRefusal>>
    ensures { IfOk result (λ found. option_map refusal_view found ≡ spec.plain_refusal 1 (map type_view dtypes.now)) }
{
    for i in 0..dtypes.len() {
        if !is_plain(&dtypes[i]) {
            return Ok(Some(CsvRefusal::NotPlain {
                column: i + 1,
                dtype: dtypes[i].clone()?,
            }));
        }
    }
    Ok(None)
}

/// Why rows are no table at given columns.
fn given_refusal(
    alloc: Global,
    null: &[u8],
    fields: &StructFields,
    names: Vec<FieldName>,
    rows: &[ByteRecord],
) -> Mem<Option<CsvRefusal>>
    ensures { IfOk result (λ found. option_map refusal_view found ≡ spec.given_refusal null.now fields.now names.items (map fields_of rows.now)) }
{
    let names = FieldNames::new(alloc, names)?;
    if names != *fields.names() {
        return Ok(Some(CsvRefusal::OtherNames));
    }
    if let Some(refusal) = plain_refusal(fields.dtypes())? {
        return Ok(Some(refusal));
    }
    values_refusal(alloc, null, fields.dtypes(), rows)
}

/// The table of names and the rows behind them at given columns.
fn typed_behind(
    alloc: Global,
    null: &[u8],
    size: u32,
    most: u32,
    fields: &StructFields,
    rows: &[ByteRecord],
    names: Vec<FieldName>,
) -> Result<CsvTable, CsvError>
    requires size { 0 < size }
    requires names { distinct_names names.items ≡ true }
    requires texts { are_texts (map fields_of rows.now) ≡ true }
    ensures { AnswersBy table_view (spec.typed_behind null.now size most fields.now (map fields_of rows.now) names.items) result }
{
    if let Some(refusal) = number_refusal(most, rows) {
        return Err(CsvError::Refused(refusal));
    }
    if let Some(refusal) = given_refusal(alloc, null, fields, names, rows)? {
        return Err(CsvError::Refused(refusal));
    }
    Ok(table_with(alloc, null, size, fields.clone()?, rows)?)
}

/// The table of a first line and the rows behind it at given columns.
fn typed_under(
    alloc: Global,
    null: &[u8],
    size: u32,
    most: u32,
    fields: &StructFields,
    header: &ByteRecord,
    rows: &[ByteRecord],
) -> Result<CsvTable, CsvError>
    requires { 0 < size }
    ensures { AnswersBy table_view (spec.typed_in null.now size most fields.now (fields_of header.now ∷ map fields_of rows.now)) result }
{
    let names = names_in(alloc, header, rows)?;
    typed_behind(alloc, null, size, most, fields, rows, names)
}

/// The table of records at given columns.
fn typed_in(
    alloc: Global,
    null: &[u8],
    size: u32,
    most: u32,
    fields: &StructFields,
    records: &[ByteRecord],
) -> Result<CsvTable, CsvError>
    requires { 0 < size }
    ensures { AnswersBy table_view (spec.typed_in null.now size most fields.now (map fields_of records.now)) result }
{
    match records {
        [] => Err(CsvError::Refused(CsvRefusal::NoHeader)),
        [header, rows @ ..] => typed_under(alloc, null, size, most, fields, header, rows),
    }
}

/// The table of a text of CSV at given columns, in blocks of `rows_per_block`, which isn't 0. The null text is null, at nullable types alone; each other cell has
/// to be a value of its column's type: `true` or `false`, a whole number as it is written in decimal, or a text.
///
/// The text is read as by [`table_of_csv`] and refused as there, and then where the names aren't those of the columns in their order, a column is of no plain type,
/// or a cell is no value of its column's type.
pub fn typed_table_of_csv(
    alloc: Global,
    text: &[u8],
    columns: &StructFields,
    null: &str,
    rows_per_block: u32,
    most_rows: u32,
) -> Result<CsvTable, CsvError>
    requires { 0 < rows_per_block }
    ensures { AnswersBy table_view (spec.typed_table null.now rows_per_block most_rows columns.now text.now) result }
{
    let records = records_of(alloc, text)?;
    typed_in(
        alloc,
        null.as_bytes(),
        rows_per_block,
        most_rows,
        columns,
        records.as_slice(),
    )
}
