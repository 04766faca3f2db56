// The cells of records, and what they are at a type.
ghost use Rattle.std.specs.Prelude.{◌≡◌, true, IfOk, is_some, option_map, unwrap_or};
ghost use Rattle.std.specs.Str.{is_utf8};
ghost use Rattle.csv.specs.Records.{fields_of};
ghost use Rattle.vx_dtype.specs.RawViews.{raw_view};
ghost use Rattle.vx_dtype.specs.TypeViews.{type_view};
ghost use Rattle.vx_dtype.specs.Values.{raw_int, raw_null, raw_text};
ghost use Rattle.vx_laws_csv.specs.Cells as spec;

use crate::numbers::whole_number;
use csv::ByteRecord;
use std::alloc::Global;
use std::str;
use vx_dtype::{DType, Mem, PType, ScalarValue, Text};

/// The cell of a record at a place, counted from 0; the empty text past the last.
pub(crate) fn cell_at(line: &ByteRecord, place: usize) -> &[u8]
    ensures { result.now ≡ spec.cell_at place (fields_of line.now) }
{
    match line.get(place) {
        Some(cell) => cell,
        None => &[],
    }
}

/// Whether a cell is UTF-8.
#[tactic(auto, using(crate::proofs::Texts::known_text, crate::proofs::Texts::no_text))]
pub(crate) fn is_text(cell: &[u8]) -> bool
    ensures { result ≡ is_utf8 cell.now }
{
    match str::from_utf8(cell) {
        Ok(_) => true,
        Err(_) => false,
    }
}

/// The truth that a cell is.
fn truth_of(cell: &[u8]) -> Option<bool>
    ensures { result ≡ spec.truth_of cell.now }
{
    if cell == b"true".as_slice() {
        return Some(true);
    }
    if cell == b"false".as_slice() {
        return Some(false);
    }
    None
}

/// The number of an integer type that a cell is.
fn number_of(p: PType, cell: &[u8]) -> Option<i128>
    ensures { option_map raw_int result ≡ spec.number_raw p (spec.whole_number cell.now) }
{
    let number = whole_number(cell)?;
    if p.in_range(number) {
        Some(number)
    } else {
        None
    }
}

/// Whether a cell is a truth.
fn is_truth(cell: &[u8]) -> bool
    ensures { result ≡ is_some (spec.truth_raw (spec.truth_of cell.now)) }
{
    match truth_of(cell) {
        Some(_) => true,
        None => false,
    }
}

/// Whether a cell is a number of an integer type.
fn is_number_of(p: PType, cell: &[u8]) -> bool
    ensures { result ≡ is_some (spec.number_raw p (spec.whole_number cell.now)) }
{
    match whole_number(cell) {
        Some(number) => p.in_range(number),
        None => false,
    }
}

/// Whether a cell that isn't the null text is a value of a type.
fn is_told(dtype: &DType, cell: &[u8]) -> bool
    ensures { result ≡ is_some (spec.told_raw (type_view dtype.now) cell.now) }
{
    match dtype {
        DType::Bool(_) => is_truth(cell),
        DType::Primitive(p, _) => is_number_of(*p, cell),
        DType::Utf8(_) => true,
        DType::List(_, _) => false,
        DType::Struct(_, _) => false,
    }
}

/// Whether a cell is a value of a type.
pub(crate) fn takes(null: &[u8], dtype: &DType, cell: &[u8]) -> bool
    ensures { result ≡ spec.takes null.now (type_view dtype.now) cell.now }
{
    if cell == null {
        return dtype.is_nullable();
    }
    is_told(dtype, cell)
}

/// The text that a cell is.
fn text_of(alloc: Global, cell: &[u8]) -> Mem<ScalarValue>
    requires { is_utf8 cell.now ≡ true }
    ensures { IfOk result (λ value. raw_view value ≡ raw_text cell.now) }
{
    match str::from_utf8(cell) {
        Ok(text) => Ok(ScalarValue::Utf8(Text::new(alloc, text)?)),
        Err(_) => unreachable!(),
    }
}

/// The truth that a cell is, and null where it is none.
fn truth_value(cell: &[u8]) -> ScalarValue
    ensures { raw_view result ≡ unwrap_or (spec.truth_raw (spec.truth_of cell.now)) raw_null }
{
    match truth_of(cell) {
        Some(truth) => ScalarValue::Bool(truth),
        None => ScalarValue::Null,
    }
}

/// The number of an integer type that a cell is, and null where it is none.
fn number_value(p: PType, cell: &[u8]) -> ScalarValue
    ensures { raw_view result ≡ unwrap_or (spec.number_raw p (spec.whole_number cell.now)) raw_null }
{
    match number_of(p, cell) {
        Some(number) => ScalarValue::Int(number),
        None => ScalarValue::Null,
    }
}

/// The value of a type that a cell is which isn't the null text, and null where it is none.
fn told_value(alloc: Global, dtype: &DType, cell: &[u8]) -> Mem<ScalarValue>
    requires { is_utf8 cell.now ≡ true }
    ensures { IfOk result (λ value. raw_view value ≡ unwrap_or (spec.told_raw (type_view dtype.now) cell.now) raw_null) }
{
    match dtype {
        DType::Bool(_) => Ok(truth_value(cell)),
        DType::Primitive(p, _) => Ok(number_value(*p, cell)),
        DType::Utf8(_) => text_of(alloc, cell),
        DType::List(_, _) => Ok(ScalarValue::Null),
        DType::Struct(_, _) => Ok(ScalarValue::Null),
    }
}

/// The value of a type that a cell is, and null where it is none.
pub(crate) fn value_of(alloc: Global, null: &[u8], dtype: &DType, cell: &[u8]) -> Mem<ScalarValue>
    requires { is_utf8 cell.now ≡ true }
    ensures { IfOk result (λ value. raw_view value ≡ spec.raw_or_null null.now (type_view dtype.now) cell.now) }
{
    if cell == null {
        return Ok(ScalarValue::Null);
    }
    told_value(alloc, dtype, cell)
}
