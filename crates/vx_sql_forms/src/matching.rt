// Operands with the types that they take from each other.
ghost use Rattle.std.specs.Prelude.{◌≡◌, IfOk};
ghost use Rattle.vx_dtype.specs.TypeViews.{type_view};
ghost use Rattle.vx_laws_sql.specs.Operands.{type_alone, number_across, taking, alone, widened_to, alike_pair, in_common, matched, both};
ghost use Rattle.vx_laws_sql.specs.CommonTypes.{common_type};
ghost use Rattle.vx_sql_forms.specs.FormAnswers.{AnswersForm, AnswersBy};
ghost use Rattle.vx_sql_forms.specs.Views.{typed_view, operand_view, pair_view};

use crate::constants::{null_of, number_in};
use crate::errors::{FormError, Mismatch};
use crate::integer_types::{common_type, integer_type, is_plain};
use crate::operands::{Operand, TypedExpr};
use std::alloc::Global;
use vx_build::cast;
use vx_dtype::{DType, Mem, Nullability, PType};

/// The type that an operand has where nothing gives it one: a number and NULL are `i64`.
fn type_alone(operand: &Operand) -> Mem<DType>
    ensures { IfOk result (λ dtype. type_view dtype ≡ type_alone (operand_view operand.now)) }
{
    match operand {
        Operand::Known(typed) => Ok(typed.dtype.clone()?),
        Operand::Number(_) | Operand::UntypedNull => {
            Ok(DType::Primitive(PType::I64, Nullability::NonNullable))
        }
    }
}

/// A number across from an operand of this type.
fn number_across(
    alloc: Global,
    other: &Operand,
    number: i128,
    dtype: &DType,
) -> Result<TypedExpr, FormError>
    ensures { AnswersForm (number_across (operand_view other.now) number (type_view dtype.now)) result }
{
    match dtype {
        DType::Primitive(p, _) => number_in(alloc, *p, number),
        _ => Err(FormError::Mismatch(Mismatch::OtherKinds(
            other.clone()?,
            Operand::Number(number),
        ))),
    }
}

/// An operand with the type that it takes from the one across from it.
pub(crate) fn taking(
    alloc: Global,
    other: &Operand,
    operand: &Operand,
) -> Result<TypedExpr, FormError>
    ensures { AnswersForm (taking (operand_view other.now) (operand_view operand.now)) result }
{
    match operand {
        Operand::Known(typed) => Ok(typed.clone()?),
        Operand::Number(number) => number_across(alloc, other, *number, &type_alone(other)?),
        Operand::UntypedNull => Ok(null_of(alloc, &type_alone(other)?)?),
    }
}

/// An operand alone: a number is an `i64`, and NULL is that of `i64`. OutOfRange exactly where a number is no `i64`.
pub fn alone(alloc: Global, operand: &Operand) -> Result<TypedExpr, FormError>
    ensures { AnswersForm (alone (operand_view operand.now)) result }
{
    taking(alloc, &Operand::UntypedNull, operand)
}

/// An expression of an integer type in a wider one, and another as it is.
pub(crate) fn widened_to(alloc: Global, common: PType, typed: TypedExpr) -> Mem<TypedExpr>
    ensures { IfOk result (λ made. typed_view made ≡ widened_to common (typed_view typed)) }
{
    let TypedExpr { dtype, expr } = typed;
    let DType::Primitive(p, n) = dtype else {
        return Ok(TypedExpr { dtype, expr });
    };
    if p == common {
        return Ok(TypedExpr {
            dtype: DType::Primitive(p, n),
            expr,
        });
    }
    Ok(TypedExpr {
        dtype: DType::Primitive(common, n),
        expr: cast(alloc, expr, DType::Primitive(common, n))?,
    })
}

/// Two expressions of one plain type but for nullability.
fn alike_pair(left: TypedExpr, right: TypedExpr) -> Result<(TypedExpr, TypedExpr), FormError>
    ensures { AnswersBy pair_view (alike_pair (typed_view left) (typed_view right)) result }
{
    if !is_plain(&left.dtype) {
        return Err(FormError::Mismatch(Mismatch::NotPlain(Operand::Known(left))));
    }
    if !is_plain(&right.dtype) {
        return Err(FormError::Mismatch(Mismatch::NotPlain(Operand::Known(right))));
    }
    if !left.dtype.eq_ignore_nullability(&right.dtype) {
        return Err(FormError::Mismatch(Mismatch::OtherKinds(
            Operand::Known(left),
            Operand::Known(right),
        )));
    }
    Ok((left, right))
}

/// Two expressions of these integer types in the narrowest that holds both.
fn in_common(
    alloc: Global,
    p: PType,
    q: PType,
    left: TypedExpr,
    right: TypedExpr,
) -> Result<(TypedExpr, TypedExpr), FormError>
    ensures { AnswersBy pair_view (in_common p q (common_type p q) (typed_view left) (typed_view right)) result }
{
    let Some(common) = common_type(p, q) else {
        return Err(FormError::Mismatch(Mismatch::NoCommonType(p, q)));
    };
    let left = widened_to(alloc, common, left)?;
    let right = widened_to(alloc, common, right)?;
    Ok((left, right))
}

/// Two expressions as they are compared: of one plain type, two of integer types in the narrowest that holds both.
fn matched(
    alloc: Global,
    left: TypedExpr,
    right: TypedExpr,
) -> Result<(TypedExpr, TypedExpr), FormError>
    ensures { AnswersBy pair_view (matched (typed_view left) (typed_view right)) result }
{
    let Some(p) = integer_type(&left.dtype) else {
        return alike_pair(left, right);
    };
    let Some(q) = integer_type(&right.dtype) else {
        return alike_pair(left, right);
    };
    in_common(alloc, p, q, left, right)
}

/// Two operands as they are compared, each with the type that it takes from the other.
pub(crate) fn both(
    alloc: Global,
    left: &Operand,
    right: &Operand,
) -> Result<(TypedExpr, TypedExpr), FormError>
    ensures { AnswersBy pair_view (both (operand_view left.now) (operand_view right.now)) result }
{
    let first = taking(alloc, right, left)?;
    let second = taking(alloc, left, right)?;
    matched(alloc, first, second)
}
