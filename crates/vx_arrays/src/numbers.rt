// Columns of integers: the least byte first, signed ones in two's complement.
ghost use Rattle.std.specs.Prelude.{◌≡◌, ◌+◌, ◌*◌, ◌≤◌, true, nat_le, length, IfOk};
ghost use Rattle.vx_dtype.specs.Types.{int_ty};
ghost use Rattle.vx_dtype.specs.Fits.{in_range};
ghost use Rattle.vx_numbers.specs.Numbers.{all_in_range, fits_ptype};
ghost use Rattle.vx_column.specs.PlainValues.{number_val};
ghost use Rattle.vx_arrays.specs.Arrays.{width_of, number_at, cell_at, cells, column_of_cells, numbers_column};
ghost use Rattle.vx_arrays.specs.Readings.{AnswersOne};

use crate::buffers::bytes_at;
use crate::cells::{has_validity, is_valid, may_have};
use crate::errors::ArrayError;
use std::alloc::Global;
use vx_column::ColumnRef;
use vx_dtype::{Mem, Nullability, PType};
use vx_numbers::Numbers;

/// Whether there are bytes for so many numbers of an integer type.
fn has_numbers(p: PType, values: &[u8], rows: usize) -> bool
    ensures { result ≡ nat_le (width_of p * rows) (length values.now) }
{
    match p {
        PType::U8 | PType::I8 => rows <= values.len(),
        PType::U16 | PType::I16 => rows <= values.len() / 2,
        PType::U32 | PType::I32 => rows <= values.len() / 4,
        PType::U64 | PType::I64 => rows <= values.len() / 8,
    }
}

/// The number at a row.
#[inline(always)]
fn number_at(p: PType, values: &[u8], i: usize) -> i128
    requires { width_of p * (i + 1) ≤ length values.now }
    ensures value { result ≡ number_at p values.now i }
    ensures range { in_range p result ≡ true }
{
    match p {
        PType::U8 => i128::from(u8::from_le_bytes(bytes_at(values, i))),
        PType::U16 => i128::from(u16::from_le_bytes(bytes_at(values, 2 * i))),
        PType::U32 => i128::from(u32::from_le_bytes(bytes_at(values, 4 * i))),
        PType::U64 => i128::from(u64::from_le_bytes(bytes_at(values, 8 * i))),
        PType::I8 => i128::from(i8::from_le_bytes(bytes_at(values, i))),
        PType::I16 => i128::from(i16::from_le_bytes(bytes_at(values, 2 * i))),
        PType::I32 => i128::from(i32::from_le_bytes(bytes_at(values, 4 * i))),
        PType::I64 => i128::from(i64::from_le_bytes(bytes_at(values, 8 * i))),
    }
}

/// The number at a row, and none where the cell is null.
#[inline(always)]
fn number_or_null(p: PType, validity: &[u8], values: &[u8], i: usize) -> Option<i128>
    requires { width_of p * (i + 1) ≤ length values.now }
    ensures value { result ≡ cell_at validity.now (number_at p values.now) i }
    ensures range { fits_ptype p result ≡ true }
{
    if !is_valid(validity, i) {
        return None;
    }
    Some(number_at(p, values, i))
}

/// The numbers at so many rows, none where the cell is null.
fn numbers_of(
    alloc: Global,
    p: PType,
    rows: usize,
    validity: &[u8],
    values: &[u8],
) -> Mem<Vec<Option<i128>>>
    requires { width_of p * rows ≤ length values.now }
    ensures numbers { IfOk result (λ numbers. numbers.items ≡ cells validity.now (number_at p values.now) rows) }
    ensures range { IfOk result (λ numbers. all_in_range p numbers.items ≡ true) }
{
    let mut numbers = Vec::with_capacity(alloc, rows)?;
    for i in 0..rows {
        numbers.push(number_or_null(p, validity, values, i))?;
    }
    Ok(numbers)
}

/// The column of these numbers of an integer type.
fn column_of_numbers(
    alloc: Global,
    p: PType,
    n: Nullability,
    numbers: Vec<Option<i128>>,
) -> Result<ColumnRef, ArrayError>
    requires { all_in_range p numbers.items ≡ true }
    ensures { AnswersOne (column_of_cells (int_ty p n) (number_val p) numbers.items) result }
{
    if !may_have(n, numbers.as_slice()) {
        return Err(ArrayError::NullCell);
    }
    let numbers = Numbers::from_options(alloc, p, numbers.as_slice())?;
    Ok(ColumnRef::from_numbers(alloc, numbers, n)?)
}

/// The column of integers over so many rows that has these buffers.
#[tactic(auto, unfolding(crate::specs::Arrays::numbers_column))]
pub(crate) fn numbers_column(
    alloc: Global,
    p: PType,
    n: Nullability,
    rows: usize,
    validity: &[u8],
    values: &[u8],
) -> Result<ColumnRef, ArrayError>
    ensures { AnswersOne (numbers_column p n rows validity.now values.now) result }
{
    if !has_validity(validity, rows) {
        return Err(ArrayError::WrongBuffers);
    }
    if !has_numbers(p, values, rows) {
        return Err(ArrayError::WrongBuffers);
    }
    let numbers = numbers_of(alloc, p, rows, validity, values)?;
    column_of_numbers(alloc, p, n, numbers)
}
