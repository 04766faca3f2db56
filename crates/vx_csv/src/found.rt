// The types of columns that are found from their cells.
ghost use Rattle.std.specs.Prelude.{◌≡◌, map, IfOk};
ghost use Rattle.csv.specs.Records.{fields_of};
ghost use Rattle.vx_dtype.specs.TypeViews.{type_view};
ghost use Rattle.vx_laws_csv.specs.Cells.{cell_at};
ghost use Rattle.vx_laws_csv.specs.FoundTypes as spec;
ghost use Rattle.vx_laws_csv.specs.CsvTables.{found_columns};

use crate::cells::{cell_at, takes};
use csv::ByteRecord;
use std::alloc::Global;
use vx_dtype::{DType, FieldName, FieldNames, Mem, Nullability, PType, StructFields};

/// Whether the cell of each row at a place is the null text.
fn all_null(null: &[u8], place: usize, rows: &[ByteRecord]) -> bool
    ensures { result ≡ spec.all_null null.now (map (cell_at place) (map fields_of rows.now)) }
{
    for row in rows {
        if cell_at(row, place) != null {
            return false;
        }
    }
    true
}

/// Whether the cell of each row at a place is a value of a type.
fn all_taken(null: &[u8], dtype: &DType, place: usize, rows: &[ByteRecord]) -> bool
    ensures { result ≡ spec.all_taken null.now (type_view dtype.now) (map (cell_at place) (map fields_of rows.now)) }
{
    for row in rows {
        if !takes(null, dtype, cell_at(row, place)) {
            return false;
        }
    }
    true
}

/// Nullable where the cell of some row at a place is the null text.
fn found_nullability(null: &[u8], place: usize, rows: &[ByteRecord]) -> Nullability
    ensures { result ≡ spec.found_nullability null.now (map (cell_at place) (map fields_of rows.now)) }
{
    let texts = DType::Utf8(Nullability::NonNullable);
    if all_taken(null, &texts, place, rows) {
        Nullability::NonNullable
    } else {
        Nullability::Nullable
    }
}

/// The type that is found of the cells of rows at a place.
fn found_type(null: &[u8], place: usize, rows: &[ByteRecord]) -> DType
    ensures { type_view result ≡ spec.found_type null.now (map (cell_at place) (map fields_of rows.now)) }
{
    let nullability = found_nullability(null, place, rows);
    if all_null(null, place, rows) {
        return DType::Utf8(nullability);
    }
    let numbers = DType::Primitive(PType::I64, Nullability::Nullable);
    if all_taken(null, &numbers, place, rows) {
        return DType::Primitive(PType::I64, nullability);
    }
    let truths = DType::Bool(Nullability::Nullable);
    if all_taken(null, &truths, place, rows) {
        return DType::Bool(nullability);
    }
    DType::Utf8(nullability)
}

/// The types that are found of rows, one for each name.
fn found_types(
    alloc: Global,
    null: &[u8],
    names: &[FieldName],
    rows: &[ByteRecord],
) -> Mem<Vec<DType>>
    ensures { IfOk result (λ types. map type_view types.items ≡ spec.found_types null.now 0 names.now (map fields_of rows.now)) }
{
    let mut types = Vec::with_capacity(alloc, names.len())?;
    for i in 0..names.len() {
        types.push(found_type(null, i, rows))?;
    }
    Ok(types)
}

/// The columns that are found of names and the rows behind them.
pub(crate) fn found_columns(
    alloc: Global,
    null: &[u8],
    names: Vec<FieldName>,
    rows: &[ByteRecord],
) -> Mem<StructFields>
    ensures { IfOk result (λ fields. fields ≡ found_columns null.now names.items (map fields_of rows.now)) }
{
    let types = found_types(alloc, null, names.as_slice(), rows)?;
    StructFields::new(alloc, FieldNames::new(alloc, names)?, types)
}
