// Casts.
ghost use Rattle.std.specs.Prelude.{◌≡◌, IfOk};
ghost use Rattle.vx_dtype.specs.TypeViews.{type_view};
ghost use Rattle.vx_laws_sql.specs.Forms.{cast_node, wrong_number, cast_to};
ghost use Rattle.vx_laws_sql.specs.Operands.{known, number as number_operand, untyped_null};
ghost use Rattle.vx_sql_forms.specs.FormAnswers.{AnswersForm};
ghost use Rattle.vx_sql_forms.specs.Views.{typed_view, operand_view, mismatch_view};

use crate::constants::{constant, null_of};
use crate::errors::{FormError, Mismatch};
use crate::integer_types::is_plain;
use crate::operands::{Operand, TypedExpr};
use std::alloc::Global;
use vx_build::cast;
use vx_dtype::{DType, Mem, Scalar, ScalarValue};
use vx_typing::takes_cast;

/// An expression in another type, which is nullable where the expression's is.
fn cast_node(alloc: Global, target: &DType, typed: &TypedExpr) -> Mem<TypedExpr>
    ensures { IfOk result (λ made. typed_view made ≡ cast_node (type_view target.now) (typed_view typed.now)) }
{
    let dtype = target.union_nullability(typed.dtype.nullability())?;
    let expr = cast(alloc, typed.expr.clone()?, dtype.clone()?)?;
    Ok(TypedExpr { dtype, expr })
}

/// An expression in another type of its kind.
fn cast_of(alloc: Global, target: &DType, typed: &TypedExpr) -> Result<TypedExpr, FormError>
    ensures { AnswersForm (cast_to (type_view target.now) (known (typed_view typed.now))) result }
{
    if !takes_cast(&typed.dtype, target) {
        return Err(FormError::Mismatch(Mismatch::NoCast(
            Operand::Known(typed.clone()?),
            target.clone()?,
        )));
    }
    Ok(cast_node(alloc, target, typed)?)
}

/// NULL of a plain type.
fn null_as(alloc: Global, target: &DType) -> Result<TypedExpr, FormError>
    ensures { AnswersForm (cast_to (type_view target.now) untyped_null) result }
{
    if !is_plain(target) {
        return Err(FormError::Mismatch(Mismatch::NoCast(Operand::UntypedNull, target.clone()?)));
    }
    Ok(null_of(alloc, target)?)
}

/// A number that is none of the type: out of an integer type's range, or of another kind.
fn wrong_number(number: i128, target: &DType) -> Mem<Mismatch>
    ensures { IfOk result (λ mismatch. mismatch_view mismatch ≡ wrong_number number (type_view target.now)) }
{
    match target {
        DType::Primitive(p, _) => Ok(Mismatch::OutOfRange(number, *p)),
        _ => Ok(Mismatch::NoCast(Operand::Number(number), target.clone()?)),
    }
}

/// A number as a constant of the type.
fn number_as(alloc: Global, target: &DType, number: i128) -> Result<TypedExpr, FormError>
    ensures { AnswersForm (cast_to (type_view target.now) (number_operand number)) result }
{
    let value = ScalarValue::Int(number);
    if !value.fits(target) {
        return Err(FormError::Mismatch(wrong_number(number, target)?));
    }
    Ok(constant(alloc, Scalar::new(target.clone()?, value))?)
}

/// `CAST(operand AS target)`, in a type that is nullable also where the operand's is; a number is a constant of the target, and NULL
/// one of the target made nullable.
///
/// NoCast exactly where an expression's type isn't of the target's kind, where a number is cast to what is no integer type, and where
/// the target is a list or a struct; OutOfRange exactly where a number is none of the integer type.
pub fn cast_to(alloc: Global, target: &DType, operand: &Operand) -> Result<TypedExpr, FormError>
    ensures { AnswersForm (cast_to (type_view target.now) (operand_view operand.now)) result }
{
    match operand {
        Operand::Known(typed) => cast_of(alloc, target, typed),
        Operand::Number(number) => number_as(alloc, target, *number),
        Operand::UntypedNull => null_as(alloc, target),
    }
}
