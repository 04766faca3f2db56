// Tests of types.
ghost use Rattle.std.specs.Prelude.{◌≡◌};
ghost use Rattle.vx_dtype.specs.TypeRules.{is_bool_ty, is_plain};
ghost use Rattle.vx_dtype.specs.TypeViews.{type_view};

use vx_dtype::DType;

/// Whether a type is that of truths.
pub(crate) fn is_truth(dtype: &DType) -> bool
    ensures { result ≡ is_bool_ty (type_view dtype.now) }
{
    matches!(dtype, DType::Bool(_))
}

/// Whether a type is one of truths, integers or texts.
pub(crate) fn is_plain(dtype: &DType) -> bool
    ensures { result ≡ is_plain (type_view dtype.now) }
{
    match dtype {
        DType::Bool(_) => true,
        DType::Primitive(_, _) => true,
        DType::Utf8(_) => true,
        DType::List(_, _) => false,
        DType::Struct(_, _) => false,
    }
}
