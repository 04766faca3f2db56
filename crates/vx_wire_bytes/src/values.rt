// Values in the wire form.
ghost use Rattle.std.specs.Prelude.{◌≡◌, ◌<◌, ◌≤◌, ◌^◌, length, map, IfOk, IfSome, option_map};
ghost use Rattle.vx_dtype.specs.TypeViews.{type_view};
ghost use Rattle.vx_dtype.specs.RawViews.{raw_view, raws_of};
ghost use Rattle.vx_wire_bytes.specs.ValueForms.{width_of, raws_view, IsValueAt};
ghost use Rattle.vx_wire_bytes.specs.ValueReading.{little_endian_at, of_twos_complement, integer_at, truth_of, bool_value_at, int_value_at, text_value_at, all_elements_with, kind_at, members_at, value_at};

use crate::fields::{number_front, text_front};
use crate::fields_at_places::bytes_from;
use crate::integers::{modulus_of, width_of};
use std::alloc::Global;
use std::rc::Rc;
use vx_dtype::{DType, Mem, Nullability, PType, ScalarValue, StructFields, Text};

/// The number of so many bytes at the front, the least first, and the bytes after them.
fn little_endian_front(width: u32, bytes: &[u8]) -> Option<(u64, &[u8])>
    requires { width ≤ 8 }
    ensures read { option_map (λ x. (x.0, x.1.now)) result ≡ little_endian_at width bytes.now }
    ensures below { IfSome result (λ x. x.0 < 256 ^ width) }
{
    if width == 0 {
        return Some((0, bytes));
    }
    let (first, rest) = match bytes {
        [] => return None,
        [first, rest @ ..] => (*first as u64, rest),
    };
    let (high, rest) = little_endian_front(width - 1, rest)?;
    Some((first + 256 * high, rest))
}

/// The number of an integer type whose two's complement is given.
fn of_twos_complement(ptype: PType, n: u64) -> i128
    requires { n < 256 ^ width_of ptype }
    ensures { result ≡ of_twos_complement ptype n }
{
    let number = n as i128;
    if number <= ptype.greatest() {
        number
    } else {
        number - modulus_of(ptype)
    }
}

/// The number of an integer type at the front, and the bytes after it.
#[tactic(auto, unfolding(crate::specs::ValueReading::integer_at))]
fn integer_front(ptype: PType, bytes: &[u8]) -> Option<(i128, &[u8])>
    ensures { option_map (λ x. (x.0, x.1.now)) result ≡ integer_at ptype bytes.now }
{
    let (n, rest) = little_endian_front(width_of(ptype), bytes)?;
    Some((of_twos_complement(ptype, n), rest))
}

/// The truth value that a byte stands for.
fn truth_of(byte: u8) -> Option<bool>
    ensures { result ≡ truth_of byte }
{
    match byte {
        0 => Some(false),
        1 => Some(true),
        _ => None,
    }
}

/// The boolean at the front, and the bytes after it.
fn bool_front(bytes: &[u8]) -> Option<(ScalarValue, &[u8])>
    ensures { option_map (λ x. (raw_view x.0, x.1.now)) result ≡ bool_value_at bytes.now }
{
    match bytes {
        [] => None,
        [byte, rest @ ..] => {
            let truth = truth_of(*byte)?;
            Some((ScalarValue::Bool(truth), rest))
        }
    }
}

/// The integer at the front, and the bytes after it.
fn int_front(ptype: PType, bytes: &[u8]) -> Option<(ScalarValue, &[u8])>
    ensures { option_map (λ x. (raw_view x.0, x.1.now)) result ≡ int_value_at ptype bytes.now }
{
    let (number, rest) = integer_front(ptype, bytes)?;
    Some((ScalarValue::Int(number), rest))
}

/// The text value at the front, and the bytes after it.
fn text_value_front(alloc: Global, bytes: &[u8]) -> Mem<Option<(ScalarValue, &[u8])>>
    ensures { IfOk result (λ found. option_map (λ x. (raw_view x.0, x.1.now)) found ≡ text_value_at bytes.now) }
{
    let Some((text, rest)) = text_front(bytes) else {
        return Ok(None);
    };
    Ok(Some((ScalarValue::Utf8(Text::new(alloc, text)?), rest)))
}

/// The value of a type at the front, and the bytes after it.
#[cycle(value_front)]
fn value_front<'a>(
    alloc: Global,
    dtype: &DType,
    bytes: &'a [u8],
) -> Mem<Option<(ScalarValue, &'a [u8])>>
    ensures { IfOk result (λ found. option_map (λ x. (raw_view x.0, x.1.now)) found ≡ value_at (type_view dtype.now) bytes.now) }
{
    let [mark, rest @ ..] = bytes else {
        return Ok(None);
    };
    match *mark {
        0 => match dtype.nullability() {
            Nullability::NonNullable => Ok(None),
            Nullability::Nullable => Ok(Some((ScalarValue::Null, rest))),
        },
        1 => kind_front(alloc, dtype, rest),
        _ => Ok(None),
    }
}

/// The same behind the byte that says that the value isn't null.
#[cycle(value_front)]
#[tactic(auto, unfolding(crate::specs::ValueReading::kind_at))]
fn kind_front<'a>(
    alloc: Global,
    dtype: &DType,
    bytes: &'a [u8],
) -> Mem<Option<(ScalarValue, &'a [u8])>>
    ensures { IfOk result (λ found. option_map (λ x. (raw_view x.0, x.1.now)) found ≡ kind_at (type_view dtype.now) bytes.now) }
{
    match dtype {
        DType::Bool(_) => Ok(bool_front(bytes)),
        DType::Primitive(ptype, _) => Ok(int_front(*ptype, bytes)),
        DType::Utf8(_) => text_value_front(alloc, bytes),
        DType::List(element, _) => {
            let Some((elements, rest)) = elements_front(alloc, element.dtype(), bytes)? else {
                return Ok(None);
            };
            Ok(Some((ScalarValue::List(Rc::new(alloc, elements)?), rest)))
        }
        DType::Struct(fields, _) => {
            let Some((values, rest)) = members_front(alloc, fields, bytes)? else {
                return Ok(None);
            };
            Ok(Some((ScalarValue::Struct(Rc::new(alloc, values)?), rest)))
        }
    }
}

/// The elements of a list at the front, and the bytes after them.
#[cycle(value_front)]
fn elements_front<'a>(
    alloc: Global,
    dtype: &DType,
    bytes: &'a [u8],
) -> Mem<Option<(Vec<ScalarValue>, &'a [u8])>>
    ensures { IfOk result (λ found. option_map (λ x. (raws_view x.0.items, x.1.now)) found ≡ all_elements_with (value_at (type_view dtype.now)) bytes.now) }
{
    let Some((number, rest)) = number_front(bytes) else {
        return Ok(None);
    };
    let mut rest = rest;
    let mut elements: Vec<ScalarValue> = Vec::new(alloc);
    for _ in 0..number {
        let Some((element, after)) = value_front(alloc, dtype, rest)? else {
            return Ok(None);
        };
        elements.push(element)?;
        rest = after;
    }
    Ok(Some((elements, rest)))
}

/// The fields' values of a struct at the front, and the bytes after them.
#[cycle(value_front)]
fn members_front<'a>(
    alloc: Global,
    fields: &StructFields,
    bytes: &'a [u8],
) -> Mem<Option<(Vec<ScalarValue>, &'a [u8])>>
    ensures { IfOk result (λ found. option_map (λ x. (raws_view x.0.items, x.1.now)) found ≡ members_at fields.now bytes.now) }
{
    let mut rest = bytes;
    let mut values: Vec<ScalarValue> = Vec::new(alloc);
    for i in 0..fields.nfields() {
        let Some(dtype) = fields.field_by_index(i) else {
            unreachable!();
        };
        let Some((value, after)) = value_front(alloc, dtype, rest)? else {
            return Ok(None);
        };
        values.push(value)?;
        rest = after;
    }
    Ok(Some((values, rest)))
}

/// The value of a type whose spelling stands at this place, and the place after it. None exactly where no spelling of a value of
/// the type stands there; no memory is taken for elements that aren't there.
pub fn read_value(
    alloc: Global,
    bytes: &[u8],
    at: usize,
    dtype: &DType,
) -> Mem<Option<(ScalarValue, usize)>>
    requires { at ≤ length bytes.now }
    ensures { IfOk result (λ found. IsValueAt (type_view dtype.now) bytes.now at (option_map (λ x. (raw_view x.0, x.1)) found)) }
{
    let Some((value, rest)) = value_front(alloc, dtype, bytes_from(bytes, at))? else {
        return Ok(None);
    };
    Ok(Some((value, bytes.len() - rest.len())))
}
