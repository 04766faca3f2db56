// What the rules of typing ask of a type.
ghost use Rattle.std.specs.Prelude.{◌≡◌};
ghost use Rattle.vx_dtype.specs.TypeRules.{is_plain, is_bool_ty, is_text_ty};
ghost use Rattle.vx_dtype.specs.Casts.{takes_cast};
ghost use Rattle.vx_dtype.specs.TypeViews.{type_view};
ghost use Rattle.vx_semantics.specs.Typing.{equal_plain, union_of};

use vx_dtype::{DType, Nullability};

/// Whether a type is booleans, integers or texts.
pub(crate) fn is_plain(dtype: &DType) -> bool
    ensures { result ≡ is_plain (type_view dtype.now) }
{
    match dtype {
        DType::Bool(_) | DType::Primitive(_, _) | DType::Utf8(_) => true,
        DType::List(_, _) | DType::Struct(_, _) => false,
    }
}

/// Whether a type is booleans.
pub fn is_bool(dtype: &DType) -> bool
    ensures { result ≡ is_bool_ty (type_view dtype.now) }
{
    matches!(dtype, DType::Bool(_))
}

/// Whether a type is texts.
pub fn is_text(dtype: &DType) -> bool
    ensures { result ≡ is_text_ty (type_view dtype.now) }
{
    matches!(dtype, DType::Utf8(_))
}

/// Whether two types are equal but for nullability, and plain.
pub fn equal_plain(left: &DType, right: &DType) -> bool
    ensures { result ≡ equal_plain (type_view left.now) (type_view right.now) }
{
    left.eq_ignore_nullability(right) && is_plain(left)
}

/// Whether values of one type may be cast to another: booleans to booleans, integers to integers of any type, texts to texts.
pub fn takes_cast(source: &DType, target: &DType) -> bool
    ensures { result ≡ takes_cast (type_view source.now) (type_view target.now) }
{
    match (source, target) {
        (DType::Bool(_), DType::Bool(_)) => true,
        (DType::Primitive(_, _), DType::Primitive(_, _)) => true,
        (DType::Utf8(_), DType::Utf8(_)) => true,
        _ => false,
    }
}

/// The union of two types' nullabilities: nullable where one of the two is.
pub fn union_of(left: &DType, right: &DType) -> Nullability
    ensures { result ≡ union_of (type_view left.now) (type_view right.now) }
{
    left.nullability().union(right.nullability())
}
