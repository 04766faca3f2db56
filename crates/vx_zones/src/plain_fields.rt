// The plain fields that paths lead to, gone down to by the names of a path: each costs one look-up, however many fields there are.
ghost use Rattle.std.specs.Prelude.{◌≡◌, ◌∷◌, [], option_map};
ghost use Rattle.vx_dtype.specs.PathViews.{part_name};
ghost use Rattle.vx_dtype.specs.TypeViews.{type_view};
ghost use Rattle.vx_zones.specs.LeafTypes.{plain_from};
ghost use Rattle.vx_zones.specs.Zoning.{plain_only, type_at};

use vx_dtype::{DType, Field, FieldPath};

/// The plain type that a path leads to, from a row's type on through fields of structs. Other paths lead to no field, or to a list or a struct.
pub(crate) fn plain_at<'a>(row: &'a DType, path: &FieldPath) -> Option<&'a DType>
    ensures { option_map (λ dtype. type_view dtype.now) result ≡ plain_from (type_view row.now) path.now }
{
    let found = type_at(row, path)?;
    plain_only(found)
}

/// The type, where it is plain.
fn plain_only(dtype: &DType) -> Option<&DType>
    ensures { option_map (λ plain. type_view plain.now) result ≡ plain_only (type_view dtype.now) }
{
    match dtype {
        DType::Bool(_) => Some(dtype),
        DType::Primitive(_, _) => Some(dtype),
        DType::Utf8(_) => Some(dtype),
        DType::List(_, _) => None,
        DType::Struct(_, _) => None,
    }
}

/// The type that a path leads to, from a type on through fields of structs: a loop, so that no path takes more stack than another.
fn type_at<'a>(row: &'a DType, path: &FieldPath) -> Option<&'a DType>
    ensures { option_map (λ dtype. type_view dtype.now) result ≡ type_at path.now (type_view row.now) }
{
    let mut dtype = row;
    for part in path.parts() {
        dtype = field_type(dtype, part)?;
    }
    Some(dtype)
}

/// The type of a field of a struct.
fn field_type<'a>(dtype: &'a DType, part: &Field) -> Option<&'a DType>
    ensures { option_map (λ found. type_view found.now) result ≡ type_at (part_name part.now ∷ []) (type_view dtype.now) }
{
    let Field::Name(name) = part;
    match dtype {
        DType::Struct(fields, _) => fields.field(name),
        _ => None,
    }
}
