// Types in the wire form.
ghost use Rattle.std.specs.Prelude.{◌≡◌, ◌≤◌, length, map, IfOk, option_map};
ghost use Rattle.vx_dtype.specs.TypeViews.{type_view};
ghost use Rattle.vx_dtype.specs.Zipped.{zipped};
ghost use Rattle.vx_wire_bytes.specs.Fields.{IsFieldAt};
ghost use Rattle.vx_wire_bytes.specs.TypeForms.{type_bytes, IsType};
ghost use Rattle.vx_wire_bytes.specs.TypeReading.{int_at, all_fields_with, tagged_with, type_at};

use crate::fields::{number_front, text_front};
use crate::fields_at_places::bytes_from;
use std::alloc::Global;
use std::rc::Rc;
use vx_dtype::{
    DType, ElementType, FieldName, FieldNames, MOST_DEEP, Mem, Nullability, PType, StructFields,
};

/// The integer type whose byte is at the front, and the bytes after it.
fn int_front(nullability: Nullability, bytes: &[u8]) -> Option<(DType, &[u8])>
    ensures { option_map (λ x. (type_view x.0, x.1.now)) result ≡ int_at nullability bytes.now }
{
    match bytes {
        [] => None,
        [width, rest @ ..] => {
            let width = PType::from_number(*width)?;
            Some((DType::Primitive(width, nullability), rest))
        }
    }
}

/// The type at the front that is no deeper than so much, and the bytes after it.
#[cycle(type_front)]
fn type_front(alloc: Global, deep: usize, bytes: &[u8]) -> Mem<Option<(DType, &[u8])>>
    ensures { IfOk result (λ found. option_map (λ x. (type_view x.0, x.1.now)) found ≡ type_at deep bytes.now) }
{
    if deep == 0 {
        return Ok(None);
    }
    tagged_front(alloc, deep - 1, bytes)
}

/// The same, where the parts of the type are no deeper than so much.
#[cycle(type_front)]
fn tagged_front(alloc: Global, deep: usize, bytes: &[u8]) -> Mem<Option<(DType, &[u8])>>
    ensures { IfOk result (λ found. option_map (λ x. (type_view x.0, x.1.now)) found ≡ tagged_with (type_at deep) bytes.now) }
{
    let [tag, null, rest @ ..] = bytes else {
        return Ok(None);
    };
    let Some(nullability) = Nullability::from_number(*null) else {
        return Ok(None);
    };
    match *tag {
        0 => Ok(Some((DType::Bool(nullability), rest))),
        1 => Ok(int_front(nullability, rest)),
        2 => Ok(Some((DType::Utf8(nullability), rest))),
        3 => {
            let Some((element, rest)) = type_front(alloc, deep, rest)? else {
                return Ok(None);
            };
            let element = ElementType::new(Rc::new(alloc, element)?);
            Ok(Some((DType::List(element, nullability), rest)))
        }
        4 => {
            let Some((fields, rest)) = fields_front(alloc, deep, rest)? else {
                return Ok(None);
            };
            Ok(Some((DType::Struct(fields, nullability), rest)))
        }
        _ => Ok(None),
    }
}

/// The fields at the front, each of a type that is no deeper than so much, and the bytes after them.
#[cycle(type_front)]
fn fields_front(alloc: Global, deep: usize, bytes: &[u8]) -> Mem<Option<(StructFields, &[u8])>>
    ensures { IfOk result (λ found. option_map (λ x. (x.0, x.1.now)) found ≡ all_fields_with (type_at deep) bytes.now) }
{
    let Some((number, rest)) = number_front(bytes) else {
        return Ok(None);
    };
    let mut rest = rest;
    let mut names: Vec<FieldName> = Vec::new(alloc);
    let mut dtypes: Vec<DType> = Vec::new(alloc);
    for _ in 0..number {
        let Some((name, after_name)) = text_front(rest) else {
            return Ok(None);
        };
        let Some((dtype, after)) = type_front(alloc, deep, after_name)? else {
            return Ok(None);
        };
        names.push(FieldName::new(alloc, name)?)?;
        dtypes.push(dtype)?;
        rest = after;
    }
    Ok(Some((fields_of(alloc, names, dtypes)?, rest)))
}

/// The fields with these names, each of the type at its place.
fn fields_of(alloc: Global, names: Vec<FieldName>, dtypes: Vec<DType>) -> Mem<StructFields>
    requires { length names.items ≡ length dtypes.items }
    ensures { IfOk result (λ fields. fields ≡ zipped names.items (map type_view dtypes.items)) }
{
    let names = FieldNames::new(alloc, names)?;
    StructFields::new(alloc, names, dtypes)
}

/// The type whose spelling stands at this place, and the place after it. None exactly where no spelling of a type stands there; a
/// type deeper than 64 has none.
pub fn read_type(alloc: Global, bytes: &[u8], at: usize) -> Mem<Option<(DType, usize)>>
    requires { at ≤ length bytes.now }
    ensures { IfOk result (λ found. IsFieldAt type_bytes IsType bytes.now at (option_map (λ x. (type_view x.0, x.1)) found)) }
{
    let Some((dtype, rest)) = type_front(alloc, MOST_DEEP, bytes_from(bytes, at))? else {
        return Ok(None);
    };
    Ok(Some((dtype, bytes.len() - rest.len())))
}
