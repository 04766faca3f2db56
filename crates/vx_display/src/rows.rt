// Rows as texts.
ghost use Rattle.std.specs.Prelude.{◌≡◌, true, map, ◌++◌, OnOk, IfOk};
ghost use Rattle.std.specs.String.{string_bytes};
ghost use Rattle.vx_dtype.specs.Fits.{fits, all_fit, fields_fit};
ghost use Rattle.vx_dtype.specs.TypeViews.{type_view};
ghost use Rattle.vx_dtype.specs.RawViews.{raw_view, raws_of};
ghost use Rattle.vx_dtype.specs.Texts.{quoted_text};
ghost use Rattle.vx_dtype.specs.Values.{valued};
ghost use Rattle.vx_display.specs.ValueTexts.{value_text};
ghost use Rattle.vx_display.specs.RowTexts.{row_text_of, list_text, struct_text};

use std::alloc::Global;
use std::fmt::Write;
use vx_dtype::{DType, Mem, Quoted, ScalarValue, StructFields};

/// A value of a type as a text in the form of JSON, without spaces: `null`, `true`, a decimal number, a text within quotes, `[v,v]`,
/// `{"name":v,"name":v}` in the order of the type's fields.
pub fn row_text(alloc: Global, dtype: &DType, value: &ScalarValue) -> Mem<String>
    requires { fits (raw_view value.now) (type_view dtype.now) ≡ true }
    ensures { IfOk result (λ text. string_bytes text ≡ value_text (valued (raw_view value.now) (type_view dtype.now))) }
{
    let mut text = String::new(alloc);
    push_row(&mut text, dtype, value)?;
    Ok(text)
}

/// The same text behind what stands in the buffer, so that many rows are written into one.
#[tactic(auto, using(crate::proofs::ValueLemmas::row_text_of_valued))]
pub fn push_row(out: &mut String, dtype: &DType, value: &ScalarValue) -> Mem<()>
    requires { fits (raw_view value.now) (type_view dtype.now) ≡ true }
    ensures { OnOk result (string_bytes out.new ≡ string_bytes out.old ++ value_text (valued (raw_view value.now) (type_view dtype.now))) }
{
    push_value(out, value, dtype)
}

/// Writes the text of a value at the end, as far as there is memory.
#[cycle(push)]
#[tactic(auto, unfolding(crate::specs::RowTexts::row_text_of, vx_dtype::specs::Fits::fits, vx_dtype::specs::TypeRules::depth_of))]
fn push_value(out: &mut String, value: &ScalarValue, dtype: &DType) -> Mem<()>
    requires { fits (raw_view value.now) (type_view dtype.now) ≡ true }
    ensures { OnOk result (string_bytes out.new ≡ string_bytes out.old ++ row_text_of (raw_view value.now) (type_view dtype.now)) }
{
    match value {
        ScalarValue::Null => Ok(out.push_str("null")?),
        ScalarValue::Bool(b) => Ok(out.push_str(if *b { "true" } else { "false" })?),
        ScalarValue::Int(i) => Ok(write!(out, "{i}")?),
        ScalarValue::Utf8(text) => push_quoted(out, text.as_str()),
        ScalarValue::List(items) => match dtype {
            DType::List(element, _) => push_elements(out, items.as_slice(), element.dtype()),
            _ => unreachable!(),
        },
        ScalarValue::Struct(values) => match dtype {
            DType::Struct(fields, _) => push_members(out, values.as_slice(), fields),
            _ => unreachable!(),
        },
    }
}

/// Writes a text within quotes at the end, as far as there is memory.
fn push_quoted(out: &mut String, text: &str) -> Mem<()>
    ensures { OnOk result (string_bytes out.new ≡ string_bytes out.old ++ quoted_text text.now) }
{
    Ok(write!(out, "{}", Quoted(text))?)
}

/// Writes values of one type in brackets at the end, as far as there is memory.
#[cycle(push)]
fn push_elements(out: &mut String, values: &[ScalarValue], dtype: &DType) -> Mem<()>
    requires { all_fit (raws_of (map raw_view values.now)) (type_view dtype.now) ≡ true }
    ensures { OnOk result (string_bytes out.new ≡ string_bytes out.old ++ list_text (raws_of (map raw_view values.now)) (type_view dtype.now)) }
{
    out.push_str("[")?;
    let mut separator = "";
    for i in 0..values.len() {
        out.push_str(separator)?;
        push_value(out, &values[i], dtype)?;
        separator = ",";
    }
    Ok(out.push_str("]")?)
}

/// Writes the values of fields in braces at the end, each behind its quoted name, as far as there is memory.
#[cycle(push)]
fn push_members(out: &mut String, values: &[ScalarValue], fields: &StructFields) -> Mem<()>
    requires { fields_fit (raws_of (map raw_view values.now)) fields.now ≡ true }
    ensures { OnOk result (string_bytes out.new ≡ string_bytes out.old ++ struct_text (raws_of (map raw_view values.now)) fields.now) }
{
    out.push_str("{")?;
    let mut separator = "";
    for i in 0..values.len().min(fields.nfields()) {
        let Some(name) = fields.field_name(i) else {
            unreachable!();
        };
        let Some(dtype) = fields.field_by_index(i) else {
            unreachable!();
        };
        out.push_str(separator)?;
        push_quoted(out, name.as_str())?;
        out.push_str(":")?;
        push_value(out, &values[i], dtype)?;
        separator = ",";
    }
    Ok(out.push_str("}")?)
}
