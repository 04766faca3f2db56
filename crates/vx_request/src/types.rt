// Types as a request writes them.
ghost use Rattle.std.specs.Prelude.{◌≡◌, map, option_map, IfOk};
ghost use Rattle.serde_json.specs.View.{view};
ghost use Rattle.vx_dtype.specs.TypeViews.{type_view};
ghost use Rattle.vx_request.specs.Objects.{list_read};
ghost use Rattle.vx_request.specs.WrittenTypes.{plain_named, type_named, plain_type_in, list_type_in, struct_type_in, named_type_in, type_within};
ghost use Rattle.vx_request.specs.WrittenTypes.{named_fields, nullability_where};
ghost use Rattle.vx_request.specs.RequestViews.{named_type_view};

use crate::objects::two_members;
use serde_json::Value;
use std::alloc::Global;
use std::rc::Rc;
use vx_dtype::{DType, ElementType, FieldName, FieldNames, Mem, Nullability, PType, StructFields};

/// The levels that a type can have in a text of JSON, which nests no deeper.
pub(crate) const MOST_LEVELS: usize = 127;

/// The plain type of a name.
fn plain_named(n: Nullability, name: &[u8]) -> Option<DType>
    ensures { option_map type_view result ≡ plain_named n name.now }
{
    if name == b"bool".as_slice() {
        return Some(DType::Bool(n));
    }
    if name == b"u8".as_slice() {
        return Some(DType::Primitive(PType::U8, n));
    }
    if name == b"u16".as_slice() {
        return Some(DType::Primitive(PType::U16, n));
    }
    if name == b"u32".as_slice() {
        return Some(DType::Primitive(PType::U32, n));
    }
    if name == b"u64".as_slice() {
        return Some(DType::Primitive(PType::U64, n));
    }
    if name == b"i8".as_slice() {
        return Some(DType::Primitive(PType::I8, n));
    }
    if name == b"i16".as_slice() {
        return Some(DType::Primitive(PType::I16, n));
    }
    if name == b"i32".as_slice() {
        return Some(DType::Primitive(PType::I32, n));
    }
    if name == b"i64".as_slice() {
        return Some(DType::Primitive(PType::I64, n));
    }
    if name == b"utf8".as_slice() {
        return Some(DType::Utf8(n));
    }
    None
}

/// The plain type of a text: a name, nullable with `?` behind it.
fn type_named(text: &[u8]) -> Option<DType>
    ensures { option_map type_view result ≡ type_named text.now }
{
    if !text.is_empty() && text[text.len() - 1] == b'?' {
        plain_named(Nullability::Nullable, &text[..text.len() - 1])
    } else {
        plain_named(Nullability::NonNullable, text)
    }
}

/// A plain type: the text of its name.
fn plain_type_in(value: &Value) -> Option<DType>
    ensures { option_map type_view result ≡ plain_type_in (view value.now) }
{
    let text = value.as_str()?;
    type_named(text.as_bytes())
}

/// Nullable where this is true.
fn nullability_where(nullable: bool) -> Nullability
    ensures { result ≡ nullability_where nullable }
{
    if nullable {
        Nullability::Nullable
    } else {
        Nullability::NonNullable
    }
}

/// A type with so many levels of lists and structs at most.
#[cycle(written)]
#[tactic(auto, using(crate::proofs::TypeLemmas::within_levels), unfolding(crate::specs::WrittenTypes::type_within))]
pub(crate) fn type_within(alloc: Global, levels: usize, value: &Value) -> Mem<Option<DType>>
    ensures { IfOk result (λ dtype. option_map type_view dtype ≡ type_within levels (view value.now)) }
{
    if let Some(dtype) = plain_type_in(value) {
        return Ok(Some(dtype));
    }
    if levels == 0 {
        return Ok(None);
    }
    if let Some(dtype) = list_type_in(alloc, levels - 1, value)? {
        return Ok(Some(dtype));
    }
    struct_type_in(alloc, levels - 1, value)
}

/// A list's type: an object of its elements' type and whether it is nullable.
#[cycle(written)]
fn list_type_in(alloc: Global, levels: usize, value: &Value) -> Mem<Option<DType>>
    ensures { IfOk result (λ dtype. option_map type_view dtype ≡ list_type_in (type_within levels) (view value.now)) }
{
    let Some((element, nullable)) = two_members(value, "list", "nullable") else {
        return Ok(None);
    };
    let Some(element) = type_within(alloc, levels, element)? else {
        return Ok(None);
    };
    let Some(nullable) = nullable.as_bool() else {
        return Ok(None);
    };
    let element = ElementType::new(Rc::new(alloc, element)?);
    Ok(Some(DType::List(element, nullability_where(nullable))))
}

/// A struct's type: an object of the list of its fields and whether it is nullable.
#[cycle(written)]
fn struct_type_in(alloc: Global, levels: usize, value: &Value) -> Mem<Option<DType>>
    ensures { IfOk result (λ dtype. option_map type_view dtype ≡ struct_type_in (type_within levels) (view value.now)) }
{
    let Some((fields, nullable)) = two_members(value, "struct", "nullable") else {
        return Ok(None);
    };
    let Some(fields) = named_types_in(alloc, levels, fields)? else {
        return Ok(None);
    };
    let Some(nullable) = nullable.as_bool() else {
        return Ok(None);
    };
    let fields = named_fields(alloc, fields)?;
    Ok(Some(DType::Struct(fields, nullability_where(nullable))))
}

/// Names beside types.
#[cycle(written)]
#[tactic(auto, using(crate::proofs::ItemLemmas::found_one_more, crate::proofs::ItemLemmas::found_at_end))]
pub(crate) fn named_types_in(
    alloc: Global,
    levels: usize,
    value: &Value,
) -> Mem<Option<Vec<(FieldName, DType)>>>
    ensures { IfOk result (λ found. option_map (λ v. map named_type_view v.items) found ≡ list_read (named_type_in (type_within levels)) (view value.now)) }
{
    let Some(items) = value.as_array() else {
        return Ok(None);
    };
    let mut found = Vec::with_capacity(alloc, items.len())?;
    for item in items {
        match named_type_in(alloc, levels, item)? {
            Some(named) => found.push(named)?,
            None => return Ok(None),
        }
    }
    Ok(Some(found))
}

/// A name beside a type: an object of the two.
#[cycle(written)]
fn named_type_in(alloc: Global, levels: usize, value: &Value) -> Mem<Option<(FieldName, DType)>>
    ensures { IfOk result (λ named. option_map named_type_view named ≡ named_type_in (type_within levels) (view value.now)) }
{
    let Some((name, dtype)) = two_members(value, "name", "type") else {
        return Ok(None);
    };
    let Some(name) = name.as_str() else {
        return Ok(None);
    };
    let Some(dtype) = type_within(alloc, levels, dtype)? else {
        return Ok(None);
    };
    Ok(Some((FieldName::new(alloc, name)?, dtype)))
}

/// The fields of names beside types.
pub(crate) fn named_fields(alloc: Global, named: Vec<(FieldName, DType)>) -> Mem<StructFields>
    ensures { IfOk result (λ fields. fields ≡ named_fields (map named_type_view named.items)) }
{
    let mut names = Vec::with_capacity(alloc, named.len())?;
    let mut dtypes = Vec::with_capacity(alloc, named.len())?;
    for (name, dtype) in named {
        names.push(name)?;
        dtypes.push(dtype)?;
    }
    StructFields::new(alloc, FieldNames::new(alloc, names)?, dtypes)
}
