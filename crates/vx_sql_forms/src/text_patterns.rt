// Matches of texts with patterns.
ghost use Rattle.vx_laws_sql.specs.Forms.{as_text, pattern_test};
ghost use Rattle.vx_sql_forms.specs.FormAnswers.{AnswersForm};
ghost use Rattle.vx_sql_forms.specs.Views.{operand_view};

use crate::connectives::truth_of;
use crate::constants::null_of;
use crate::errors::{FormError, Mismatch};
use crate::operands::{Operand, TypedExpr};
use std::alloc::Global;
use vx_dtype::{DType, Nullability};
use vx_expr::LikeExpr;
use vx_typing::is_text;

/// An operand where a text is asked: NULL is one.
fn as_text(alloc: Global, operand: &Operand) -> Result<TypedExpr, FormError>
    ensures { AnswersForm (as_text (operand_view operand.now)) result }
{
    if let Operand::UntypedNull = operand {
        return Ok(null_of(alloc, &DType::Utf8(Nullability::Nullable))?);
    }
    if let Operand::Known(typed) = operand {
        if is_text(&typed.dtype) {
            return Ok(typed.clone()?);
        }
    }
    Err(FormError::Mismatch(Mismatch::NoText(operand.clone()?)))
}

/// `operand LIKE pattern`, which minds case. NoText exactly where one of the two is neither a text nor NULL; the operand is told first.
pub fn pattern_test(
    alloc: Global,
    operand: &Operand,
    pattern: &Operand,
) -> Result<TypedExpr, FormError>
    ensures { AnswersForm (pattern_test (operand_view operand.now) (operand_view pattern.now)) result }
{
    let operand = as_text(alloc, operand)?;
    let pattern = as_text(alloc, pattern)?;
    let expr = LikeExpr::new_expr(alloc, operand.expr, pattern.expr, false, false)?;
    Ok(truth_of(&operand.dtype, &pattern.dtype, expr))
}
