// Columns of the buffers of a body.
ghost use Rattle.std.specs.Prelude.{◌≡◌, ◌+◌, ◌*◌, ◌≤◌, length, map, IfOk};
ghost use Rattle.vx_dtype.specs.Types.{bool_ty, int_ty, text_ty};
ghost use Rattle.vx_dtype.specs.TypeViews.{type_view};
ghost use Rattle.vx_arrays.specs.Arrays.{buffer_count, column_told, arrays_told, AnswersArrays};
ghost use Rattle.vx_arrays.specs.Readings.{AnswersOne};

use crate::buffers::buffer_at;
use crate::errors::ArrayError;
use crate::numbers::numbers_column;
use crate::texts::texts_column;
use crate::truths::truths_column;
use std::alloc::Global;
use vx_column::ColumnRef;
use vx_dtype::{DType, Nullability, PType};

/// How many buffers a column of a type has.
fn buffer_count(dtype: &DType) -> usize
    ensures { result ≡ buffer_count (type_view dtype.now) }
{
    match dtype {
        DType::Bool(_) => 2,
        DType::Primitive(_, _) => 2,
        DType::Utf8(_) => 3,
        DType::List(_, _) => 0,
        DType::Struct(_, _) => 0,
    }
}

/// The column of booleans whose first buffer has this number.
#[tactic(auto, unfolding(crate::specs::Arrays::column_told))]
fn bool_column(
    alloc: Global,
    n: Nullability,
    rows: usize,
    body: &[u8],
    buffers: &[u64],
    first: usize,
) -> Result<ColumnRef, ArrayError>
    requires { 2 * first ≤ length buffers.now }
    ensures told { AnswersOne (column_told (bool_ty n) rows body.now buffers.now first) result }
    ensures within { IfOk result (λ _. 2 * (first + 2) ≤ length buffers.now) }
{
    let validity = buffer_at(body, buffers, first)?;
    let values = buffer_at(body, buffers, first + 1)?;
    truths_column(alloc, n, rows, validity, values)
}

/// The column of integers whose first buffer has this number.
#[tactic(auto, unfolding(crate::specs::Arrays::column_told))]
fn int_column(
    alloc: Global,
    p: PType,
    n: Nullability,
    rows: usize,
    body: &[u8],
    buffers: &[u64],
    first: usize,
) -> Result<ColumnRef, ArrayError>
    requires { 2 * first ≤ length buffers.now }
    ensures told { AnswersOne (column_told (int_ty p n) rows body.now buffers.now first) result }
    ensures within { IfOk result (λ _. 2 * (first + 2) ≤ length buffers.now) }
{
    let validity = buffer_at(body, buffers, first)?;
    let values = buffer_at(body, buffers, first + 1)?;
    numbers_column(alloc, p, n, rows, validity, values)
}

/// The column of texts whose first buffer has this number.
#[tactic(auto, unfolding(crate::specs::Arrays::column_told))]
fn text_column(
    alloc: Global,
    n: Nullability,
    rows: usize,
    body: &[u8],
    buffers: &[u64],
    first: usize,
) -> Result<ColumnRef, ArrayError>
    requires { 2 * first ≤ length buffers.now }
    ensures told { AnswersOne (column_told (text_ty n) rows body.now buffers.now first) result }
    ensures within { IfOk result (λ _. 2 * (first + 3) ≤ length buffers.now) }
{
    let validity = buffer_at(body, buffers, first)?;
    let offsets = buffer_at(body, buffers, first + 1)?;
    let bytes = buffer_at(body, buffers, first + 2)?;
    texts_column(alloc, n, rows, validity, offsets, bytes)
}

/// The column of a type whose first buffer has this number.
#[tactic(auto, unfolding(crate::specs::Arrays::column_told))]
fn column_of(
    alloc: Global,
    dtype: &DType,
    rows: usize,
    body: &[u8],
    buffers: &[u64],
    first: usize,
) -> Result<ColumnRef, ArrayError>
    requires { 2 * first ≤ length buffers.now }
    ensures told { AnswersOne (column_told (type_view dtype.now) rows body.now buffers.now first) result }
    ensures within { IfOk result (λ _. 2 * (first + buffer_count (type_view dtype.now)) ≤ length buffers.now) }
{
    match dtype {
        DType::Bool(n) => bool_column(alloc, *n, rows, body, buffers, first),
        DType::Primitive(p, n) => int_column(alloc, *p, *n, rows, body, buffers, first),
        DType::Utf8(n) => text_column(alloc, *n, rows, body, buffers, first),
        DType::List(_, _) => Err(ArrayError::NoArray),
        DType::Struct(_, _) => Err(ArrayError::NoArray),
    }
}

/// The columns of these types over so many rows, in the layout of Apache Arrow's columnar format. `buffers` has two numbers for each buffer: its first byte
/// in the body, and how many bytes it has. They stand in the order of the columns: validity and values of booleans and of integers; validity, offsets and
/// bytes of texts. Validity and booleans are bitmaps, least bit first; a validity of no bytes makes no cell null. Numbers stand least byte first, offsets in
/// 32 bits. What stands under a null counts for nothing, but for its offsets.
///
/// The first column that is refused is refused with `NoArray` exactly where its type is that of lists or structs; else with `WrongBuffers` exactly where one
/// of its buffers isn't there, isn't in the body or is too short, or an offset is above the next one or above the number of bytes; else with `BadText`
/// exactly where a text that isn't null isn't UTF-8; else with `NullCell` exactly where a cell is null and the type isn't nullable. Where no column is
/// refused, `WrongBuffers` exactly where numbers are left behind those of the last column.
pub fn columns_of_arrays(
    alloc: Global,
    types: &[DType],
    rows: usize,
    body: &[u8],
    buffers: &[u64],
) -> Result<Vec<ColumnRef>, ArrayError>
    ensures { AnswersArrays (arrays_told (map type_view types.now) rows body.now buffers.now) result }
{
    let mut columns = Vec::with_capacity(alloc, types.len())?;
    let mut first = 0;
    for i in 0..types.len() {
        columns.push(column_of(alloc, &types[i], rows, body, buffers, first)?)?;
        first += buffer_count(&types[i]);
    }
    if buffers.len() != 2 * first {
        return Err(ArrayError::WrongBuffers);
    }
    Ok(columns)
}
