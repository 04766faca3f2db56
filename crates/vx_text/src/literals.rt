// Constants, and what tokens make of them.
ghost use Rattle.std.specs.Prelude.{◌≡◌, IfOk, option_map};
ghost use Rattle.vx_dtype.specs.TypeViews.{type_view};
ghost use Rattle.vx_dtype.specs.RawViews.{raw_view};
ghost use Rattle.vx_tokens.specs.Numbers.{integer_of};
ghost use Rattle.vx_text.specs.NamedExpressions.{constant, constant_of, integer_type, number_literal, bool_literal, text_literal};

use std::alloc::Global;
use vx_dtype::{DType, Mem, Nullability, PType, Scalar, ScalarValue, Text, WrongValue};
use vx_expr::{ExprRef, LiteralExpr};
use vx_tokens::integer_of;

/// The constant of this type, and None where the value isn't one of the type.
pub(crate) fn constant(alloc: Global, dtype: DType, value: ScalarValue) -> Mem<Option<ExprRef>>
    ensures { IfOk result (λ made. made ≡ constant (type_view dtype) (raw_view value)) }
{
    match Scalar::try_new(dtype, value) {
        Ok(scalar) => Ok(Some(LiteralExpr::new_expr(alloc, scalar)?)),
        Err(WrongValue) => Ok(None),
    }
}

/// The constant of this type, and None where there is no value, or it isn't one of the type.
pub(crate) fn constant_of(
    alloc: Global,
    dtype: DType,
    value: Option<ScalarValue>,
) -> Mem<Option<ExprRef>>
    ensures { IfOk result (λ made. made ≡ constant_of (type_view dtype) (option_map raw_view value)) }
{
    match value {
        Some(value) => constant(alloc, dtype, value),
        None => Ok(None),
    }
}

/// The type of a number: the named one, or i64.
fn integer_type(suffix: Option<PType>) -> PType
    ensures { result ≡ integer_type suffix }
{
    match suffix {
        Some(ptype) => ptype,
        None => PType::I64,
    }
}

/// The number of these digits as a constant, and None where it isn't one of its type.
pub(crate) fn number_literal(
    alloc: Global,
    negative: bool,
    digits: &Text,
    suffix: Option<PType>,
) -> Mem<Option<ExprRef>>
    ensures { IfOk result (λ made. made ≡ number_literal negative digits.now suffix) }
{
    let dtype = DType::Primitive(integer_type(suffix), Nullability::NonNullable);
    match integer_of(negative, digits.as_str()) {
        Some(number) => constant(alloc, dtype, ScalarValue::Int(number)),
        None => Ok(None),
    }
}

/// A boolean constant.
pub(crate) fn bool_literal(alloc: Global, value: bool) -> Mem<ExprRef>
    ensures { IfOk result (λ made. made ≡ bool_literal value) }
{
    LiteralExpr::new_expr(alloc, Scalar::bool(value, Nullability::NonNullable))
}

/// A text constant.
pub(crate) fn text_literal(alloc: Global, text: &Text) -> Mem<ExprRef>
    ensures { IfOk result (λ made. made ≡ text_literal text.now) }
{
    let scalar = Scalar::utf8(alloc, text.as_str(), Nullability::NonNullable)?;
    LiteralExpr::new_expr(alloc, scalar)
}
