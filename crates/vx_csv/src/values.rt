// Cells that are no value of their column's type.
ghost use Rattle.std.specs.Prelude.{◌≡◌, map, IfOk, option_map};
ghost use Rattle.csv.specs.Records.{fields_of};
ghost use Rattle.vx_dtype.specs.TypeViews.{type_view};
ghost use Rattle.vx_laws_csv.specs.Refusals.{bad_cell};
ghost use Rattle.vx_laws_csv.specs.CsvTables as spec;
ghost use Rattle.vx_csv.specs.Views.{refusal_view};

use crate::cells::{cell_at, takes};
use crate::errors::CsvRefusal;
use csv::ByteRecord;
use std::alloc::Global;
use vx_dtype::{DType, Mem};

/// The refusal of a cell.
fn bad_cell(alloc: Global, row: usize, column: usize, cell: &[u8], dtype: &DType) -> Mem<CsvRefusal>
    ensures { IfOk result (λ refusal. refusal_view refusal ≡ bad_cell row column cell.now (type_view dtype.now)) }
{
    Ok(CsvRefusal::BadCell {
        row,
        column,
        cell: Vec::from_slice(alloc, cell)?,
        dtype: dtype.clone()?,
    })
}

/// The first cell of a row that is no value of its column's type.
fn cells_refusal(
    alloc: Global,
    null: &[u8],
    row: usize,
    dtypes: &[DType],
    line: &ByteRecord,
) -> Mem<Option<CsvRefusal>>
    ensures { IfOk result (λ found. option_map refusal_view found ≡ spec.cells_refusal null.now row 0 (map type_view dtypes.now) (fields_of line.now)) }
{
    for i in 0..dtypes.len() {
        let cell = cell_at(line, i);
        if !takes(null, &dtypes[i], cell) {
            return Ok(Some(bad_cell(alloc, row, i + 1, cell, &dtypes[i])?));
        }
    }
    Ok(None)
}

/// The first such cell of rows, in their order.
pub(crate) fn values_refusal(
    alloc: Global,
    null: &[u8],
    dtypes: &[DType],
    rows: &[ByteRecord],
) -> Mem<Option<CsvRefusal>>
    ensures { IfOk result (λ found. option_map refusal_view found ≡ spec.values_refusal null.now (map type_view dtypes.now) 1 (map fields_of rows.now)) }
{
    for i in 0..rows.len() {
        if let Some(refusal) = cells_refusal(alloc, null, i + 1, dtypes, &rows[i])? {
            return Ok(Some(refusal));
        }
    }
    Ok(None)
}
