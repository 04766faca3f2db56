// Sums and differences.
ghost use Rattle.std.specs.Prelude.{◌≡◌, IfOk};
ghost use Rattle.vx_laws_sql.specs.Forms.{sum_node, sum_by, sum, difference};
ghost use Rattle.vx_sql_forms.specs.FormAnswers.{AnswersForm};
ghost use Rattle.vx_sql_forms.specs.Views.{typed_view, operand_view};

use crate::errors::{FormError, Mismatch};
use crate::matching::both;
use crate::operands::{Operand, TypedExpr};
use std::alloc::Global;
use vx_dtype::Mem;
use vx_expr::{BinaryExpr, Operator};
use vx_typing::union_of;

/// A sum or a difference of two expressions of one type.
fn sum_node(alloc: Global, operator: Operator, left: TypedExpr, right: TypedExpr) -> Mem<TypedExpr>
    ensures { IfOk result (λ made. typed_view made ≡ sum_node operator (typed_view left, typed_view right)) }
{
    let dtype = left
        .dtype
        .with_nullability(union_of(&left.dtype, &right.dtype))?;
    let expr = BinaryExpr::new_expr(alloc, left.expr, operator, right.expr)?;
    Ok(TypedExpr { dtype, expr })
}

/// Two operands under `+` or `-`.
fn sum_by(
    alloc: Global,
    operator: Operator,
    left: &Operand,
    right: &Operand,
) -> Result<TypedExpr, FormError>
    ensures { AnswersForm (sum_by operator (operand_view left.now) (operand_view right.now)) result }
{
    let (left, right) = both(alloc, left, right)?;
    if !left.dtype.is_primitive() {
        return Err(FormError::Mismatch(Mismatch::NoNumber(Operand::Known(left))));
    }
    Ok(sum_node(alloc, operator, left, right)?)
}

/// `left + right`, in the narrowest integer type that holds both.
///
/// Refuses as a comparison does, and with NoNumber exactly where the two would be compared but are no integers.
pub fn sum(alloc: Global, left: &Operand, right: &Operand) -> Result<TypedExpr, FormError>
    ensures { AnswersForm (sum (operand_view left.now) (operand_view right.now)) result }
{
    sum_by(alloc, Operator::Add, left, right)
}

/// `left - right`, in the narrowest integer type that holds both.
///
/// Refuses as a comparison does, and with NoNumber exactly where the two would be compared but are no integers.
pub fn difference(alloc: Global, left: &Operand, right: &Operand) -> Result<TypedExpr, FormError>
    ensures { AnswersForm (difference (operand_view left.now) (operand_view right.now)) result }
{
    sum_by(alloc, Operator::Sub, left, right)
}
