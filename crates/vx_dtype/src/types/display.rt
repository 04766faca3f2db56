// Types as texts.
ghost use Rattle.std.specs.Prelude.{◌≡◌, Some, []};
ghost use Rattle.std.specs.Fmt.{WritesOnOk};
ghost use Rattle.vx_dtype.specs.Texts.{ty_text, fields_text, field_text, separator_at};
ghost use Rattle.vx_dtype.specs.TypeViews.{type_view};

use super::{DType, ElementType, StructFields};
use crate::names::FieldName;
use crate::writing::separator;
use std::fmt;

impl fmt::Display for DType {
    ghost output = { λ dtype. Some (ty_text (type_view dtype)) };

    fn fmt<W: fmt::Write>(&self, f: &mut fmt::Formatter<W>) -> fmt::Result {
        show(self, f)
    }
}

#[cycle(show)]
#[tactic(auto, unfolding(crate::specs::Texts::ty_text, crate::specs::TypeRules::depth_of))]
fn show<W: fmt::Write>(dtype: &DType, f: &mut fmt::Formatter<W>) -> fmt::Result
    ensures { WritesOnOk W.write_str_gives f.old result (ty_text (type_view dtype.now)) f.new }
{
    match dtype {
        DType::Bool(n) => write!(f, "bool{n}"),
        DType::Primitive(p, n) => write!(f, "{}{n}", p.name()),
        DType::Utf8(n) => write!(f, "utf8{n}"),
        DType::List(element, n) => {
            f.write_str("list(")?;
            show_element(element, f)?;
            write!(f, "){n}")
        }
        DType::Struct(fields, n) => {
            f.write_str("{")?;
            show_fields(fields, f)?;
            write!(f, "}}{n}")
        }
    }
}

#[cycle(show)]
#[tactic(auto, unfolding(crate::specs::TypeRules::depth_of))]
fn show_element<W: fmt::Write>(element: &ElementType, f: &mut fmt::Formatter<W>) -> fmt::Result
    ensures { WritesOnOk W.write_str_gives f.old result (ty_text element.now) f.new }
{
    show(element.dtype(), f)
}

#[cycle(show)]
#[tactic(auto, unfolding(crate::specs::Texts::fields_text, crate::specs::TypeRules::depth_of))]
fn show_fields<W: fmt::Write>(fields: &StructFields, f: &mut fmt::Formatter<W>) -> fmt::Result
    ensures { WritesOnOk W.write_str_gives f.old result (fields_text [] fields.now) f.new }
{
    for i in 0..fields.dtypes.len() {
        let name = &fields.names.as_slice()[i];
        let dtype = &fields.dtypes[i];
        show_field(i, name, dtype, f)?;
    }
    Ok(())
}

#[cycle(show)]
#[tactic(auto, unfolding(crate::specs::TypeRules::depth_of))]
fn show_field<W: fmt::Write>(
    i: usize,
    name: &FieldName,
    dtype: &DType,
    f: &mut fmt::Formatter<W>,
) -> fmt::Result
    ensures { WritesOnOk W.write_str_gives f.old result (field_text (separator_at i) name.now (type_view dtype.now)) f.new }
{
    f.write_str(separator(i))?;
    f.write_str(name.as_str())?;
    f.write_str("=")?;
    show(dtype, f)
}
