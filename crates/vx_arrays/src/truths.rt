// Columns of booleans: a bit for each row.
ghost use Rattle.std.specs.Prelude.{◌≡◌, IfOk};
ghost use Rattle.vx_dtype.specs.Types.{bool_ty};
ghost use Rattle.vx_words.specs.Words.{truth_val};
ghost use Rattle.vx_arrays.specs.Bitmaps.{bit_at};
ghost use Rattle.vx_arrays.specs.Arrays.{cell_at, cells, column_of_cells, truths_column};
ghost use Rattle.vx_arrays.specs.Readings.{AnswersOne};

use crate::bitmaps::{bit_at, has_bits};
use crate::cells::{has_validity, is_valid, may_have};
use crate::errors::ArrayError;
use std::alloc::Global;
use vx_column::ColumnRef;
use vx_dtype::{Mem, Nullability};
use vx_words::Truths;

/// The truth at a row, and none where the cell is null.
#[inline(always)]
fn truth_at(validity: &[u8], values: &[u8], i: usize) -> Option<bool>
    ensures { result ≡ cell_at validity.now (bit_at values.now) i }
{
    if !is_valid(validity, i) {
        return None;
    }
    Some(bit_at(values, i))
}

/// The truths at so many rows, none where the cell is null.
fn truths_of(alloc: Global, rows: usize, validity: &[u8], values: &[u8]) -> Mem<Vec<Option<bool>>>
    ensures { IfOk result (λ truths. truths.items ≡ cells validity.now (bit_at values.now) rows) }
{
    let mut truths = Vec::with_capacity(alloc, rows)?;
    for i in 0..rows {
        truths.push(truth_at(validity, values, i))?;
    }
    Ok(truths)
}

/// The column of these truths.
fn column_of_truths(
    alloc: Global,
    n: Nullability,
    truths: Vec<Option<bool>>,
) -> Result<ColumnRef, ArrayError>
    ensures { AnswersOne (column_of_cells (bool_ty n) truth_val truths.items) result }
{
    if !may_have(n, truths.as_slice()) {
        return Err(ArrayError::NullCell);
    }
    let truths = Truths::from_options(alloc, truths.as_slice())?;
    Ok(ColumnRef::from_truths(alloc, truths, n)?)
}

/// The column of booleans over so many rows that has these buffers.
#[tactic(auto, unfolding(crate::specs::Arrays::truths_column))]
pub(crate) fn truths_column(
    alloc: Global,
    n: Nullability,
    rows: usize,
    validity: &[u8],
    values: &[u8],
) -> Result<ColumnRef, ArrayError>
    ensures { AnswersOne (truths_column n rows validity.now values.now) result }
{
    if !has_validity(validity, rows) {
        return Err(ArrayError::WrongBuffers);
    }
    if !has_bits(values, rows) {
        return Err(ArrayError::WrongBuffers);
    }
    let truths = truths_of(alloc, rows, validity, values)?;
    column_of_truths(alloc, n, truths)
}
