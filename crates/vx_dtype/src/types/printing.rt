// How values of types print.
ghost use Rattle.std.specs.Prelude.{◌≡◌, map, []};
ghost use Rattle.std.specs.Fmt.{WritesOnOk};
ghost use Rattle.vx_dtype.specs.ScalarTexts.{number_suffix, scalar_text, in_brackets, in_braces, items_text, members_text};
ghost use Rattle.vx_dtype.specs.TypeViews.{type_view};
ghost use Rattle.vx_dtype.specs.RawViews.{raw_view, raws_of};

use crate::types::{DType, StructFields};
use crate::values::ScalarValue;
use crate::writing::write_quoted;
use std::fmt;

// The name behind a number of this type.
fn number_suffix(dtype: &DType) -> &'static str
    ensures { result.now ≡ number_suffix (type_view dtype.now) }
{
    match dtype {
        DType::Primitive(p, _) => p.name(),
        _ => "",
    }
}

// The text of a value of a type.
#[cycle(printing)]
#[tactic(auto, unfolding(crate::specs::ScalarTexts::scalar_text))]
pub(crate) fn write_value<W: fmt::Write>(
    value: &ScalarValue,
    dtype: &DType,
    f: &mut fmt::Formatter<W>,
) -> fmt::Result
    ensures { WritesOnOk W.write_str_gives f.old result (scalar_text (raw_view value.now) (type_view dtype.now)) f.new }
{
    match value {
        ScalarValue::Null => f.write_str("null"),
        ScalarValue::Bool(b) => f.write_str(if *b { "true" } else { "false" }),
        ScalarValue::Int(i) => {
            write!(f, "{i}")?;
            f.write_str(number_suffix(dtype))
        }
        ScalarValue::Utf8(text) => write_quoted(text.as_str(), f),
        ScalarValue::List(items) => match dtype {
            DType::List(element, _) => write_list(items.as_slice(), element.dtype(), f),
            _ => Ok(()),
        },
        ScalarValue::Struct(values) => match dtype {
            DType::Struct(fields, _) => write_struct(values.as_slice(), fields, f),
            _ => Ok(()),
        },
    }
}

// Values of one type in brackets.
#[cycle(printing)]
#[tactic(auto, unfolding(crate::specs::ScalarTexts::items_text))]
fn write_list<W: fmt::Write>(
    values: &[ScalarValue],
    dtype: &DType,
    f: &mut fmt::Formatter<W>,
) -> fmt::Result
    ensures { WritesOnOk W.write_str_gives f.old result (in_brackets (items_text [] (raws_of (map raw_view values.now)) (type_view dtype.now))) f.new }
{
    f.write_str("[")?;
    write_items(values, dtype, f)?;
    f.write_str("]")
}

// Values of one type with `, ` between.
#[cycle(printing)]
#[tactic(auto, unfolding(crate::specs::ScalarTexts::items_text))]
fn write_items<W: fmt::Write>(
    values: &[ScalarValue],
    dtype: &DType,
    f: &mut fmt::Formatter<W>,
) -> fmt::Result
    ensures { WritesOnOk W.write_str_gives f.old result (items_text [] (raws_of (map raw_view values.now)) (type_view dtype.now)) f.new }
{
    let mut separator = "";
    for i in 0..values.len() {
        f.write_str(separator)?;
        write_value(&values[i], dtype, f)?;
        separator = ", ";
    }
    Ok(())
}

// The values of fields in braces.
#[cycle(printing)]
#[tactic(auto, unfolding(crate::specs::ScalarTexts::members_text))]
fn write_struct<W: fmt::Write>(
    values: &[ScalarValue],
    fields: &StructFields,
    f: &mut fmt::Formatter<W>,
) -> fmt::Result
    ensures { WritesOnOk W.write_str_gives f.old result (in_braces (members_text [] (raws_of (map raw_view values.now)) fields.now)) f.new }
{
    f.write_str("{")?;
    write_members(values, fields, f)?;
    f.write_str("}")
}

// The values of fields, each with its name, with `, ` between.
#[cycle(printing)]
#[tactic(auto, unfolding(crate::specs::ScalarTexts::members_text))]
fn write_members<W: fmt::Write>(
    values: &[ScalarValue],
    fields: &StructFields,
    f: &mut fmt::Formatter<W>,
) -> fmt::Result
    ensures { WritesOnOk W.write_str_gives f.old result (members_text [] (raws_of (map raw_view values.now)) fields.now) f.new }
{
    let mut separator = "";
    for i in 0..values.len().min(fields.dtypes.len()) {
        f.write_str(separator)?;
        f.write_str(fields.names.as_slice()[i].as_str())?;
        f.write_str(": ")?;
        write_value(&values[i], &fields.dtypes[i], f)?;
        separator = ", ";
    }
    Ok(())
}
