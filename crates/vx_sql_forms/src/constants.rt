// Constants as expressions with their types.
ghost use Rattle.std.specs.Prelude.{◌≡◌, IfOk};
ghost use Rattle.vx_dtype.specs.TypeViews.{type_view};
ghost use Rattle.vx_laws_sql.specs.Operands.{constant, null_of, boolean, text, number_in};
ghost use Rattle.vx_sql_forms.specs.FormAnswers.{AnswersForm};
ghost use Rattle.vx_sql_forms.specs.Views.{typed_view};

use crate::errors::{FormError, Mismatch};
use crate::operands::TypedExpr;
use std::alloc::Global;
use vx_dtype::{DType, Mem, Nullability, PType, Scalar, ScalarValue, Text};
use vx_expr::LiteralExpr;

/// A constant of this scalar's type.
pub(crate) fn constant(alloc: Global, scalar: Scalar) -> Mem<TypedExpr>
    ensures { IfOk result (λ made. typed_view made ≡ constant scalar.ty scalar.value) }
{
    let dtype = scalar.dtype().clone()?;
    let expr = LiteralExpr::new_expr(alloc, scalar)?;
    Ok(TypedExpr { dtype, expr })
}

/// NULL of a type, which is made nullable.
pub(crate) fn null_of(alloc: Global, dtype: &DType) -> Mem<TypedExpr>
    ensures { IfOk result (λ made. typed_view made ≡ null_of (type_view dtype.now)) }
{
    constant(
        alloc,
        Scalar::null(dtype.with_nullability(Nullability::Nullable)?),
    )
}

/// A boolean as an expression, which isn't nullable.
pub fn boolean(alloc: Global, b: bool) -> Mem<TypedExpr>
    ensures { IfOk result (λ made. typed_view made ≡ boolean b) }
{
    constant(alloc, Scalar::bool(b, Nullability::NonNullable))
}

/// A text as an expression, which isn't nullable.
pub fn text(alloc: Global, s: &Text) -> Mem<TypedExpr>
    ensures { IfOk result (λ made. typed_view made ≡ text s.now) }
{
    constant(
        alloc,
        Scalar::utf8(alloc, s.as_str(), Nullability::NonNullable)?,
    )
}

/// A number of an integer type. OutOfRange exactly where it is none of the type.
#[tactic(auto, unfolding(vx_dtype::specs::Fits::fits))]
pub(crate) fn number_in(alloc: Global, p: PType, number: i128) -> Result<TypedExpr, FormError>
    ensures { AnswersForm (number_in p number) result }
{
    if !p.in_range(number) {
        return Err(FormError::Mismatch(Mismatch::OutOfRange(number, p)));
    }
    let dtype = DType::Primitive(p, Nullability::NonNullable);
    Ok(constant(alloc, Scalar::new(dtype, ScalarValue::Int(number)))?)
}
