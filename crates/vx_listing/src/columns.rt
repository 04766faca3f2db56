// Columns with their types, as a request writes them.
ghost use Rattle.std.specs.Prelude.{◌≡◌, [], ◌++◌, OnOk};
ghost use Rattle.std.specs.String.{string_bytes};
ghost use Rattle.vx_dtype.specs.TypeViews.{type_view};
ghost use Rattle.vx_laws_listing.specs.ListingTexts.{type_json, fields_json, name_json, nullable_text, plain_type_text, struct_front};

use std::fmt::Write;
use vx_dtype::{DType, Mem, Nullability, Quoted, StructFields};

/// Whether null is a value of a type.
fn nullable_text(nullability: Nullability) -> &'static str
    ensures { result.now ≡ nullable_text nullability }
{
    match nullability {
        Nullability::NonNullable => "false",
        Nullability::Nullable => "true",
    }
}

/// Writes a plain type at the end, as far as there is memory: its name within quotes.
fn push_plain(out: &mut String, dtype: &DType) -> Mem<()>
    ensures { OnOk result (string_bytes out.new ≡ string_bytes out.old ++ plain_type_text (type_view dtype.now)) }
{
    Ok(write!(out, "\"{dtype}\"")?)
}

/// Writes the front of a struct's object at the end, as far as there is memory: up to its fields.
fn push_struct(out: &mut String, nullability: Nullability) -> Mem<()>
    ensures { OnOk result (string_bytes out.new ≡ string_bytes out.old ++ struct_front nullability) }
{
    out.push_str("{\"nullable\":")?;
    out.push_str(nullable_text(nullability))?;
    Ok(out.push_str(",\"struct\":[")?)
}

/// Writes a type at the end, as far as there is memory: a plain one by its name, a list or a struct as an object. A column's type is no deeper than 64.
#[cycle(push)]
#[tactic(auto, unfolding(vx_laws_listing::specs::ListingTexts::type_json, vx_dtype::specs::TypeRules::depth_of))]
fn push_type(out: &mut String, dtype: &DType) -> Mem<()>
    ensures { OnOk result (string_bytes out.new ≡ string_bytes out.old ++ type_json (type_view dtype.now)) }
{
    match dtype {
        DType::Bool(_) => push_plain(out, dtype),
        DType::Primitive(_, _) => push_plain(out, dtype),
        DType::Utf8(_) => push_plain(out, dtype),
        DType::List(element, nullability) => {
            out.push_str("{\"list\":")?;
            push_type(out, element.dtype())?;
            out.push_str(",\"nullable\":")?;
            out.push_str(nullable_text(*nullability))?;
            Ok(out.push_str("}")?)
        }
        DType::Struct(fields, nullability) => {
            push_struct(out, *nullability)?;
            push_fields(out, fields)?;
            Ok(out.push_str("]}")?)
        }
    }
}

/// Writes fields at the end, as far as there is memory: each as an object of its name and its type, with a comma between any two.
#[cycle(push)]
pub(crate) fn push_fields(out: &mut String, fields: &StructFields) -> Mem<()>
    ensures { OnOk result (string_bytes out.new ≡ string_bytes out.old ++ fields_json [] fields.now) }
{
    let mut separator = "";
    for i in 0..fields.nfields() {
        let Some(name) = fields.field_name(i) else {
            unreachable!();
        };
        let Some(dtype) = fields.field_by_index(i) else {
            unreachable!();
        };
        out.push_str(separator)?;
        push_name(out, name.as_str())?;
        push_type(out, dtype)?;
        out.push_str("}")?;
        separator = ",";
    }
    Ok(())
}

/// Writes the front of a field's object at the end, as far as there is memory: up to its type.
fn push_name(out: &mut String, name: &str) -> Mem<()>
    ensures { OnOk result (string_bytes out.new ≡ string_bytes out.old ++ name_json name.now) }
{
    Ok(write!(out, "{{\"name\":{},\"type\":", Quoted(name))?)
}
