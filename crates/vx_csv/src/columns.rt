// The columns of rows, in blocks.
ghost use Rattle.std.specs.Prelude.{◌≡◌, ◌<◌, ◌≤◌, true, min, map, length, IfOk};
ghost use Rattle.std.specs.List.{list_all};
ghost use Rattle.csv.specs.Records.{fields_of};
ghost use Rattle.vx_dtype.specs.RawViews.{raw_view};
ghost use Rattle.vx_dtype.specs.TypeRules.{is_plain, no_name_twice};
ghost use Rattle.vx_dtype.specs.TypeViews.{type_view};
ghost use Rattle.vx_column.specs.Columns.{column, seen_rows, values_fit};
ghost use Rattle.vx_tables.specs.Blocks.{block_view};
ghost use Rattle.vx_laws_csv.specs.Cells.{cell_at, raw_or_null};
ghost use Rattle.vx_laws_csv.specs.FoundTypes.{all_taken};
ghost use Rattle.vx_laws_csv.specs.Sheets.{are_texts};
ghost use Rattle.vx_laws_csv.specs.CsvTables as spec;

use crate::cells::{cell_at, value_of};
use csv::ByteRecord;
use std::alloc::Global;
use vx_column::{ColumnRef, made};
use vx_dtype::{DType, Mem, ScalarValue};

/// The values of a type that the cells of rows are at a place, null where one is none.
fn values_of(
    alloc: Global,
    null: &[u8],
    place: usize,
    dtype: &DType,
    rows: &[ByteRecord],
) -> Mem<Vec<ScalarValue>>
    requires { are_texts (map fields_of rows.now) ≡ true }
    ensures { IfOk result (λ values. map raw_view values.items
        ≡ map (raw_or_null null.now (type_view dtype.now)) (map (cell_at place) (map fields_of rows.now))) }
{
    let mut values = Vec::with_capacity(alloc, rows.len())?;
    for row in rows {
        values.push(value_of(alloc, null, dtype, cell_at(row, place))?)?;
    }
    Ok(values)
}

/// The column of these values of a type.
fn kept(alloc: Global, dtype: &DType, values: Vec<ScalarValue>) -> Mem<ColumnRef>
    requires fit { values_fit (type_view dtype.now) values.items ≡ true }
    requires names { no_name_twice (type_view dtype.now) ≡ true }
    ensures { IfOk result (λ c. c ≡ column (type_view dtype.now) (seen_rows (type_view dtype.now) values.items)) }
{
    made(ColumnRef::of_values(alloc, dtype.clone()?, values))
}

/// The column of a type that the cells of rows are at a place.
fn column_of(
    alloc: Global,
    null: &[u8],
    place: usize,
    dtype: &DType,
    rows: &[ByteRecord],
) -> Mem<ColumnRef>
    requires plain { is_plain (type_view dtype.now) ≡ true }
    requires texts { are_texts (map fields_of rows.now) ≡ true }
    requires taken { all_taken null.now (type_view dtype.now) (map (cell_at place) (map fields_of rows.now)) ≡ true }
    ensures { IfOk result (λ c. c ≡ spec.column_of null.now place (type_view dtype.now) (map fields_of rows.now)) }
{
    let values = values_of(alloc, null, place, dtype, rows)?;
    kept(alloc, dtype, values)
}

/// The columns of rows.
fn columns_of(
    alloc: Global,
    null: &[u8],
    dtypes: &[DType],
    rows: &[ByteRecord],
) -> Mem<Vec<ColumnRef>>
    requires plain { list_all is_plain (map type_view dtypes.now) ≡ true }
    requires texts { are_texts (map fields_of rows.now) ≡ true }
    requires taken { spec.rows_taken null.now (map type_view dtypes.now) (map fields_of rows.now) ≡ true }
    ensures { IfOk result (λ cs. cs.items ≡ spec.columns_from null.now 0 (map type_view dtypes.now) (map fields_of rows.now)) }
{
    let mut columns = Vec::with_capacity(alloc, dtypes.len())?;
    for i in 0..dtypes.len() {
        columns.push(column_of(alloc, null, i, &dtypes[i], rows)?)?;
    }
    Ok(columns)
}

/// How many rows the first block has of so many.
fn first_length(size: u32, rows: usize) -> u32
    ensures { result ≡ min size rows }
{
    if rows < size as usize {
        rows as u32
    } else {
        size
    }
}

/// The blocks of rows: how long each is, and its columns.
#[derive(Drop)]
pub(crate) struct Blocks {
    pub(crate) lengths: Vec<u32>,
    pub(crate) columns: Vec<Vec<ColumnRef>>,
}

/// The blocks of rows, of so many each.
pub(crate) fn blocks_of(
    alloc: Global,
    null: &[u8],
    size: u32,
    dtypes: &[DType],
    rows: &[ByteRecord],
) -> Mem<Blocks>
    requires size { 0 < size }
    requires plain { list_all is_plain (map type_view dtypes.now) ≡ true }
    requires texts { are_texts (map fields_of rows.now) ≡ true }
    requires taken { spec.rows_taken null.now (map type_view dtypes.now) (map fields_of rows.now) ≡ true }
    ensures lengths { IfOk result (λ made. made.lengths.items ≡ map length (spec.cut size (map fields_of rows.now))) }
    ensures columns { IfOk result (λ made. map block_view made.columns.items
        ≡ map (spec.columns_from null.now 0 (map type_view dtypes.now)) (spec.cut size (map fields_of rows.now))) }
{
    let mut lengths = Vec::new(alloc);
    let mut columns = Vec::new(alloc);
    let mut left = rows;
    while left.len() > 0 {
        let count = first_length(size, left.len());
        let (block, rest) = left.split_at(count as usize);
        lengths.push(count)?;
        columns.push(columns_of(alloc, null, dtypes, block)?)?;
        left = rest;
    }
    Ok(Blocks { lengths, columns })
}
