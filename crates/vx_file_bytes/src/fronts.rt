// Fields of the wire form at the front of bytes: each with the bytes after it.
ghost use Rattle.std.specs.Prelude.{◌≡◌, true, IfOk, IfSome, option_map};
ghost use Rattle.vx_dtype.specs.Fits.{fits};
ghost use Rattle.vx_dtype.specs.RawViews.{raw_view};
ghost use Rattle.vx_dtype.specs.TypeRules.{most_deep};
ghost use Rattle.vx_dtype.specs.TypeViews.{type_view};
ghost use Rattle.vx_wire_bytes.specs.Reading.{number_at, text_at};
ghost use Rattle.vx_wire_bytes.specs.TypeReading.{type_at};
ghost use Rattle.vx_wire_bytes.specs.ValueReading.{value_at};
ghost use Rattle.vx_laws_file.specs.HeaderReading.{items_with};

use std::alloc::Global;
use vx_dtype::{DType, FieldName, Mem, ScalarValue};
use vx_wire_bytes::{read_number, read_text, read_type, read_value};

/// The number at the front.
pub(crate) fn number_front(bytes: &[u8]) -> Option<(u32, &[u8])>
    ensures { option_map (λ x. (x.0, x.1.now)) result ≡ number_at bytes.now }
{
    let Some((number, after)) = read_number(bytes, 0) else {
        return None;
    };
    let (_, rest) = bytes.split_at(after);
    Some((number, rest))
}

/// The name at the front.
pub(crate) fn name_front(alloc: Global, bytes: &[u8]) -> Mem<Option<(FieldName, &[u8])>>
    ensures { IfOk result (λ found. option_map (λ x. (x.0, x.1.now)) found ≡ text_at bytes.now) }
{
    let Some((text, after)) = read_text(alloc, bytes, 0)? else {
        return Ok(None);
    };
    let (_, rest) = bytes.split_at(after);
    Ok(Some((FieldName::new(alloc, text.as_str())?, rest)))
}

/// The type at the front, which is no deeper than 64.
pub(crate) fn type_front(alloc: Global, bytes: &[u8]) -> Mem<Option<(DType, &[u8])>>
    ensures { IfOk result (λ found. option_map (λ x. (type_view x.0, x.1.now)) found ≡ type_at most_deep bytes.now) }
{
    let Some((dtype, after)) = read_type(alloc, bytes, 0)? else {
        return Ok(None);
    };
    let (_, rest) = bytes.split_at(after);
    Ok(Some((dtype, rest)))
}

/// The value of a type at the front.
pub(crate) fn value_front<'a>(
    alloc: Global,
    dtype: &DType,
    bytes: &'a [u8],
) -> Mem<Option<(ScalarValue, &'a [u8])>>
    ensures read { IfOk result (λ found. option_map (λ x. (raw_view x.0, x.1.now)) found ≡ value_at (type_view dtype.now) bytes.now) }
    ensures fit { IfOk result (λ found. IfSome found (λ x. fits (raw_view x.0) (type_view dtype.now) ≡ true)) }
{
    let Some((value, after)) = read_value(alloc, bytes, 0, dtype)? else {
        return Ok(None);
    };
    let (_, rest) = bytes.split_at(after);
    Ok(Some((value, rest)))
}

/// So many numbers at the front.
pub(crate) fn numbers_front(
    alloc: Global,
    number: usize,
    bytes: &[u8],
) -> Mem<Option<(Vec<u32>, &[u8])>>
    ensures { IfOk result (λ found. option_map (λ x. (x.0.items, x.1.now)) found ≡ items_with number_at number bytes.now) }
{
    let mut rest = bytes;
    let mut numbers: Vec<u32> = Vec::new(alloc);
    for _ in 0..number {
        let Some((found, after)) = number_front(rest) else {
            return Ok(None);
        };
        numbers.push(found)?;
        rest = after;
    }
    Ok(Some((numbers, rest)))
}

/// So many names at the front.
pub(crate) fn names_front(
    alloc: Global,
    number: u32,
    bytes: &[u8],
) -> Mem<Option<(Vec<FieldName>, &[u8])>>
    ensures { IfOk result (λ found. option_map (λ x. (x.0.items, x.1.now)) found ≡ items_with text_at number bytes.now) }
{
    let mut rest = bytes;
    let mut names: Vec<FieldName> = Vec::new(alloc);
    for _ in 0..number {
        let Some((name, after)) = name_front(alloc, rest)? else {
            return Ok(None);
        };
        names.push(name)?;
        rest = after;
    }
    Ok(Some((names, rest)))
}
