// Cells, read as values of a type.
ghost use Rattle.std.specs.Prelude.{◌≡◌, map, option_map, option_and_then, IfOk};
ghost use Rattle.serde_json.specs.Find.{as_bool, as_str};
ghost use Rattle.serde_json.specs.View.{view, items_view};
ghost use Rattle.vx_dtype.specs.TypeViews.{type_view};
ghost use Rattle.vx_dtype.specs.RawViews.{raw_view};
ghost use Rattle.vx_dtype.specs.Values.{raw_bool, raw_int, raw_text};
ghost use Rattle.vx_request.specs.Objects.{each_item, integer_in};
ghost use Rattle.vx_request.specs.Cells.{raw_in, members_in, list_from, struct_from};
ghost use Rattle.vx_request.specs.RequestViews.{raws_view};

use crate::objects::{has_members, integer_in};
use serde_json::Value;
use std::alloc::Global;
use std::rc::Rc;
use vx_dtype::{DType, Mem, ScalarValue, StructFields, Text};

/// Null, or what stands for a value of a type's kind: whether it is one of the type isn't asked here.
#[cycle(cells)]
#[tactic(auto, unfolding(crate::specs::Cells::present_in, vx_dtype::specs::TypeRules::depth_of))]
pub(crate) fn raw_in(alloc: Global, dtype: &DType, value: &Value) -> Mem<Option<ScalarValue>>
    ensures { IfOk result (λ x. option_map raw_view x ≡ raw_in (type_view dtype.now) (view value.now)) }
{
    if value.is_null() {
        return Ok(Some(ScalarValue::Null));
    }
    match dtype {
        DType::Bool(_) => Ok(bool_in(value)),
        DType::Primitive(_, _) => Ok(number_in(value)),
        DType::Utf8(_) => text_in(alloc, value),
        DType::List(element, _) => match value.as_array() {
            Some(items) => list_from(alloc, raws_in(alloc, element.dtype(), items.as_slice())?),
            None => Ok(None),
        },
        DType::Struct(fields, _) => {
            if !has_members(value, fields.nfields()) {
                return Ok(None);
            }
            struct_from(alloc, members_in(alloc, fields, value)?)
        }
    }
}

/// What each item of a list stands for.
#[cycle(cells)]
#[tactic(auto, using(crate::proofs::ItemLemmas::found_one_more, crate::proofs::ItemLemmas::found_at_end))]
pub(crate) fn raws_in(
    alloc: Global,
    dtype: &DType,
    items: &[Value],
) -> Mem<Option<Vec<ScalarValue>>>
    ensures { IfOk result (λ values. option_map raws_view values ≡ each_item (raw_in (type_view dtype.now)) (items_view items.now)) }
{
    let mut values = Vec::with_capacity(alloc, items.len())?;
    for item in items {
        match raw_in(alloc, dtype, item)? {
            Some(value) => values.push(value)?,
            None => return Ok(None),
        }
    }
    Ok(Some(values))
}

/// What the members of the fields' names stand for, where none is missing.
#[cycle(cells)]
#[tactic(auto, unfolding(crate::specs::Cells::present_in))]
fn members_in(alloc: Global, fields: &StructFields, value: &Value) -> Mem<Option<Vec<ScalarValue>>>
    ensures { IfOk result (λ values. option_map raws_view values ≡ members_in fields.now (view value.now)) }
{
    let mut values = Vec::with_capacity(alloc, fields.nfields())?;
    for i in 0..fields.nfields() {
        let Some(name) = fields.field_name(i) else {
            unreachable!();
        };
        let Some(dtype) = fields.field_by_index(i) else {
            unreachable!();
        };
        let Some(member) = value.get(name.as_str()) else {
            return Ok(None);
        };
        match raw_in(alloc, dtype, member)? {
            Some(value) => values.push(value)?,
            None => return Ok(None),
        }
    }
    Ok(Some(values))
}

/// True or false.
fn bool_in(value: &Value) -> Option<ScalarValue>
    ensures { option_map raw_view result ≡ option_map raw_bool (as_bool (view value.now)) }
{
    match value.as_bool() {
        Some(b) => Some(ScalarValue::Bool(b)),
        None => None,
    }
}

/// A whole number.
fn number_in(value: &Value) -> Option<ScalarValue>
    ensures { option_map raw_view result ≡ option_map raw_int (integer_in (view value.now)) }
{
    match integer_in(value) {
        Some(number) => Some(ScalarValue::Int(number)),
        None => None,
    }
}

/// A text.
fn text_in(alloc: Global, value: &Value) -> Mem<Option<ScalarValue>>
    ensures { IfOk result (λ x. option_map raw_view x ≡ option_map raw_text (as_str (view value.now))) }
{
    match value.as_str() {
        Some(text) => Ok(Some(ScalarValue::Utf8(Text::new(alloc, text)?))),
        None => Ok(None),
    }
}

/// A list of elements.
fn list_from(alloc: Global, values: Option<Vec<ScalarValue>>) -> Mem<Option<ScalarValue>>
    ensures { IfOk result (λ x. option_map raw_view x ≡ option_and_then list_from (option_map raws_view values)) }
{
    match values {
        Some(values) => Ok(Some(ScalarValue::List(Rc::new(alloc, values)?))),
        None => Ok(None),
    }
}

/// A struct of members.
fn struct_from(alloc: Global, values: Option<Vec<ScalarValue>>) -> Mem<Option<ScalarValue>>
    ensures { IfOk result (λ x. option_map raw_view x ≡ option_and_then struct_from (option_map raws_view values)) }
{
    match values {
        Some(values) => Ok(Some(ScalarValue::Struct(Rc::new(alloc, values)?))),
        None => Ok(None),
    }
}
