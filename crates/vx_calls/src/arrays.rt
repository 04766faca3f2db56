// Columns that arrays tell.
ghost use Rattle.std.specs.Prelude.{◌≡◌, true, map, IfOk};
ghost use Rattle.vx_column.specs.StructColumns.{all_have_rows, column_types};
ghost use Rattle.vx_dtype.specs.TypeViews.{type_view};
ghost use Rattle.vx_arrays.specs.Arrays.{arrays_told};
ghost use Rattle.vx_calls.specs.Steps.{TellsArrays};

use crate::errors::CallError;
use std::alloc::Global;
use vx_arrays::columns_of_arrays;
use vx_column::ColumnRef;
use vx_dtype::DType;

/// The columns of these types over so many rows that arrays tell.
pub(crate) fn told_columns(
    alloc: Global,
    types: &[DType],
    rows: usize,
    body: &[u8],
    buffers: &[u64],
) -> Result<Vec<ColumnRef>, CallError>
    ensures told { TellsArrays (arrays_told (map type_view types.now) rows body.now buffers.now) result }
    ensures types { IfOk result (λ columns. column_types columns.items ≡ map type_view types.now) }
    ensures rows { IfOk result (λ columns. all_have_rows rows columns.items ≡ true) }
{
    match columns_of_arrays(alloc, types, rows, body, buffers) {
        Ok(columns) => Ok(columns),
        Err(refusal) => Err(CallError::from(refusal)),
    }
}
