// Types and constants as they are written in queries.
ghost use Rattle.std.specs.Prelude.{◌≡◌, [], map};
ghost use Rattle.std.specs.Fmt.{WritesOnOk};
ghost use Rattle.vx_dtype.specs.TypeViews.{type_view};
ghost use Rattle.vx_dtype.specs.RawViews.{raw_view, raws_of};
ghost use Rattle.vx_dtype.specs.ScalarTexts.{in_brackets, in_braces, number_suffix};
ghost use Rattle.vx_text.specs.Writing.{type_text, labels_text, item_text, items_text, is_bare, literal_text};

use std::fmt;
use vx_dtype::{DType, Scalar, ScalarValue, StructFields};
use vx_tokens::{Name, Quote};

/// Writes a type.
#[cycle(types)]
#[tactic(auto, unfolding(crate::specs::Writing::type_text, vx_dtype::specs::TypeRules::depth_of))]
pub(crate) fn write_type<W: fmt::Write>(dtype: &DType, f: &mut fmt::Formatter<W>) -> fmt::Result
    ensures { WritesOnOk W.write_str_gives f.old result (type_text (type_view dtype.now)) f.new }
{
    match dtype {
        DType::Bool(n) => write!(f, "bool{n}"),
        DType::Primitive(p, n) => write!(f, "{}{n}", p.name()),
        DType::Utf8(n) => write!(f, "utf8{n}"),
        DType::List(element, n) => {
            f.write_str("list(")?;
            write_type(element.dtype(), f)?;
            write!(f, "){n}")
        }
        DType::Struct(fields, n) => {
            f.write_str("{")?;
            write_labels(fields, f)?;
            write!(f, "}}{n}")
        }
    }
}

/// Writes the types of fields, each behind its name, with `, ` between any two.
#[cycle(types)]
#[tactic(auto, unfolding(crate::specs::Writing::type_text, vx_dtype::specs::TypeRules::depth_of))]
fn write_labels<W: fmt::Write>(fields: &StructFields, f: &mut fmt::Formatter<W>) -> fmt::Result
    ensures { WritesOnOk W.write_str_gives f.old result (labels_text [] fields.now) f.new }
{
    let mut separator = "";
    for i in 0..fields.nfields() {
        let Some(name) = fields.field_name(i) else {
            unreachable!();
        };
        let Some(dtype) = fields.field_by_index(i) else {
            unreachable!();
        };
        f.write_str(separator)?;
        write!(f, "{}", Name(name.as_str()))?;
        f.write_str(": ")?;
        write_type(dtype, f)?;
        separator = ", ";
    }
    Ok(())
}

/// Writes a value without its type.
#[cycle(items)]
#[tactic(auto, unfolding(crate::specs::Writing::item_text))]
fn write_item<W: fmt::Write>(value: &ScalarValue, f: &mut fmt::Formatter<W>) -> fmt::Result
    ensures { WritesOnOk W.write_str_gives f.old result (item_text (raw_view value.now)) f.new }
{
    match value {
        ScalarValue::Null => f.write_str("null"),
        ScalarValue::Bool(b) => f.write_str(if *b { "true" } else { "false" }),
        ScalarValue::Int(i) => write!(f, "{i}"),
        ScalarValue::Utf8(text) => write!(f, "{}", Quote(text.as_str())),
        ScalarValue::List(items) => {
            f.write_str("[")?;
            write_items(items.as_slice(), f)?;
            f.write_str("]")
        }
        ScalarValue::Struct(values) => {
            f.write_str("{")?;
            write_items(values.as_slice(), f)?;
            f.write_str("}")
        }
    }
}

/// Writes values without their types, with `, ` between any two.
#[cycle(items)]
#[tactic(auto, unfolding(crate::specs::Writing::item_text))]
fn write_items<W: fmt::Write>(values: &[ScalarValue], f: &mut fmt::Formatter<W>) -> fmt::Result
    ensures { WritesOnOk W.write_str_gives f.old result (items_text [] (raws_of (map raw_view values.now))) f.new }
{
    let mut separator = "";
    for i in 0..values.len() {
        f.write_str(separator)?;
        write_item(&values[i], f)?;
        separator = ", ";
    }
    Ok(())
}

/// Whether a constant of this type is written without `lit`.
fn is_bare(dtype: &DType) -> bool
    ensures { result ≡ is_bare (type_view dtype.now) }
{
    match dtype {
        DType::Bool(_) | DType::Primitive(_, _) | DType::Utf8(_) => !dtype.is_nullable(),
        DType::List(_, _) | DType::Struct(_, _) => false,
    }
}

/// The name of the type behind a number of this type.
fn number_suffix(dtype: &DType) -> &'static str
    ensures { result.now ≡ number_suffix (type_view dtype.now) }
{
    match dtype {
        DType::Primitive(p, _) => p.name(),
        _ => "",
    }
}

/// Writes a constant.
#[tactic(auto, unfolding(crate::specs::Writing::literal_text))]
pub(crate) fn write_literal<W: fmt::Write>(
    scalar: &Scalar,
    f: &mut fmt::Formatter<W>,
) -> fmt::Result
    ensures { WritesOnOk W.write_str_gives f.old result (literal_text scalar.now) f.new }
{
    if is_bare(scalar.dtype()) {
        write_item(scalar.value(), f)?;
        return f.write_str(number_suffix(scalar.dtype()));
    }
    f.write_str("lit(")?;
    write_type(scalar.dtype(), f)?;
    f.write_str(", ")?;
    write_item(scalar.value(), f)?;
    f.write_str(")")
}
