// Tests for null.
ghost use Rattle.vx_laws_sql.specs.Forms.{null_test, not_null_test};
ghost use Rattle.vx_sql_forms.specs.FormAnswers.{AnswersForm};
ghost use Rattle.vx_sql_forms.specs.Views.{operand_view};

use crate::errors::FormError;
use crate::matching::alone;
use crate::operands::{Operand, TypedExpr};
use std::alloc::Global;
use vx_build::{is_null, not};
use vx_dtype::{DType, Nullability};

/// `operand IS NULL`, which is never null. OutOfRange exactly where the operand is a number that is no `i64`.
pub fn null_test(alloc: Global, operand: &Operand) -> Result<TypedExpr, FormError>
    ensures { AnswersForm (null_test (operand_view operand.now)) result }
{
    let operand = alone(alloc, operand)?;
    let expr = is_null(alloc, operand.expr)?;
    Ok(TypedExpr {
        dtype: DType::Bool(Nullability::NonNullable),
        expr,
    })
}

/// `operand IS NOT NULL`, which is never null. OutOfRange exactly where the operand is a number that is no `i64`.
pub fn not_null_test(alloc: Global, operand: &Operand) -> Result<TypedExpr, FormError>
    ensures { AnswersForm (not_null_test (operand_view operand.now)) result }
{
    let operand = alone(alloc, operand)?;
    let test = is_null(alloc, operand.expr)?;
    let expr = not(alloc, test)?;
    Ok(TypedExpr {
        dtype: DType::Bool(Nullability::NonNullable),
        expr,
    })
}
