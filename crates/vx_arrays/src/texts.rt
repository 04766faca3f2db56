// Columns of texts: the offsets at which texts begin and end, and the bytes of all of them.
ghost use Rattle.std.specs.Prelude.{◌≡◌, ◌+◌, ◌*◌, ◌^◌, ◌<◌, ◌≤◌, true, length, map};
ghost use Rattle.vx_dtype.specs.RawViews.{raw_view};
ghost use Rattle.vx_arrays.specs.Arrays.{offset_at, text_at, has_place, has_places, texts_column};
ghost use Rattle.vx_arrays.specs.Readings.{AnswersOne, AnswersText, AnswersTexts, text_told, texts_told, column_of_texts};

use crate::buffers::bytes_at;
use crate::cells::{has_validity, is_valid};
use crate::errors::ArrayError;
use std::alloc::Global;
use std::str;
use vx_column::{ColumnError, ColumnRef};
use vx_dtype::{DType, Nullability, ScalarValue, Text};

/// The offset at a row.
#[inline(always)]
fn offset_at(offsets: &[u8], i: usize) -> usize
    requires { 4 * (i + 1) ≤ length offsets.now }
    ensures { result ≡ offset_at offsets.now i }
{
    u32::from_le_bytes(bytes_at(offsets, 4 * i)) as usize
}

/// Whether the offset at a row isn't above the next one, and that one not above the number of bytes.
#[inline(always)]
fn has_place(offsets: &[u8], bytes: &[u8], i: usize) -> bool
    requires { 4 * (i + 2) ≤ length offsets.now }
    ensures { result ≡ has_place offsets.now bytes.now i }
{
    let start = offset_at(offsets, i);
    let end = offset_at(offsets, i + 1);
    start <= end && end <= bytes.len()
}

/// Whether there is an offset more than rows, and each row has its place in the bytes; without rows there may be none.
fn has_places(offsets: &[u8], bytes: &[u8], rows: usize) -> bool
    ensures { result ≡ has_places offsets.now bytes.now rows }
{
    if rows == 0 {
        return true;
    }
    if offsets.len() / 4 <= rows {
        return false;
    }
    for i in 0..rows {
        if !has_place(offsets, bytes, i) {
            return false;
        }
    }
    true
}

/// The bytes of the text at a row.
fn text_at<'a>(offsets: &[u8], bytes: &'a [u8], i: usize) -> &'a [u8]
    requires room { 4 * (i + 2) ≤ length offsets.now }
    requires place { has_place offsets.now bytes.now i ≡ true }
    ensures { result.now ≡ text_at offsets.now bytes.now i }
{
    let start = offset_at(offsets, i);
    let end = offset_at(offsets, i + 1);
    &bytes[start..end]
}

/// The text at a row as a value, and null where the cell is. BadText exactly where it isn't null, and its bytes aren't UTF-8.
fn text_or_null(
    alloc: Global,
    validity: &[u8],
    offsets: &[u8],
    bytes: &[u8],
    i: usize,
) -> Result<ScalarValue, ArrayError>
    requires room { 4 * (i + 2) ≤ length offsets.now }
    requires place { has_place offsets.now bytes.now i ≡ true }
    ensures { AnswersText (text_told validity.now offsets.now bytes.now i) result }
{
    if !is_valid(validity, i) {
        return Ok(ScalarValue::Null);
    }
    match str::from_utf8(text_at(offsets, bytes, i)) {
        Ok(text) => Ok(ScalarValue::Utf8(Text::new(alloc, text)?)),
        Err(_) => Err(ArrayError::BadText),
    }
}

/// The texts at so many rows as values, null where the cell is. BadText exactly where one that isn't null isn't UTF-8.
fn texts_of(
    alloc: Global,
    rows: usize,
    validity: &[u8],
    offsets: &[u8],
    bytes: &[u8],
) -> Result<Vec<ScalarValue>, ArrayError>
    requires { has_places offsets.now bytes.now rows ≡ true }
    ensures { AnswersTexts (texts_told validity.now offsets.now bytes.now rows) result }
{
    let mut texts = Vec::with_capacity(alloc, rows)?;
    for i in 0..rows {
        texts.push(text_or_null(alloc, validity, offsets, bytes, i)?)?;
    }
    Ok(texts)
}

/// The column of these texts. NullCell exactly where one is null and the type isn't nullable.
#[tactic(auto, using(crate::proofs::TextLemmas::text_names))]
fn column_of_texts(
    alloc: Global,
    n: Nullability,
    texts: Vec<ScalarValue>,
) -> Result<ColumnRef, ArrayError>
    ensures { AnswersOne (column_of_texts n (map raw_view texts.items)) result }
{
    match ColumnRef::of_values(alloc, DType::Utf8(n), texts) {
        Ok(column) => Ok(column),
        Err(ColumnError::NoMemory) => Err(ArrayError::NoMemory),
        Err(ColumnError::WrongValue) => Err(ArrayError::NullCell),
        Err(ColumnError::WrongLength) => unreachable!(),
        Err(ColumnError::DuplicateField) => unreachable!(),
        Err(ColumnError::UnknownField) => unreachable!(),
        Err(ColumnError::Overflow) => unreachable!(),
        Err(ColumnError::BadCast) => unreachable!(),
    }
}

/// The column of texts over so many rows that has these buffers.
#[tactic(auto, unfolding(crate::specs::Arrays::texts_column))]
pub(crate) fn texts_column(
    alloc: Global,
    n: Nullability,
    rows: usize,
    validity: &[u8],
    offsets: &[u8],
    bytes: &[u8],
) -> Result<ColumnRef, ArrayError>
    ensures { AnswersOne (texts_column n rows validity.now offsets.now bytes.now) result }
{
    if !has_validity(validity, rows) {
        return Err(ArrayError::WrongBuffers);
    }
    if !has_places(offsets, bytes, rows) {
        return Err(ArrayError::WrongBuffers);
    }
    let texts = texts_of(alloc, rows, validity, offsets, bytes)?;
    column_of_texts(alloc, n, texts)
}
