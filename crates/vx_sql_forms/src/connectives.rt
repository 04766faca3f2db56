// `AND`, `OR` and `NOT`, by the three-valued logic after Kleene.
ghost use Rattle.std.specs.Prelude.{◌≡◌, IfOk};
ghost use Rattle.vx_dtype.specs.TypeViews.{type_view};
ghost use Rattle.vx_expr.specs.Trees.{binary};
ghost use Rattle.vx_laws_sql.specs.Forms.{truth_of, as_boolean, connective, conjunction, disjunction, negation};
ghost use Rattle.vx_sql_forms.specs.FormAnswers.{AnswersForm};
ghost use Rattle.vx_sql_forms.specs.Views.{typed_view, operand_view};

use crate::constants::null_of;
use crate::errors::{FormError, Mismatch};
use crate::operands::{Operand, TypedExpr};
use std::alloc::Global;
use vx_build::not;
use vx_dtype::{DType, Mem, Nullability};
use vx_expr::{BinaryExpr, ExprRef, Operator};
use vx_typing::{is_bool, union_of};

/// A boolean expression, null only where one of these types is nullable.
pub(crate) fn truth_of(left: &DType, right: &DType, expr: ExprRef) -> TypedExpr
    ensures { typed_view result ≡ truth_of (type_view left.now) (type_view right.now) expr }
{
    TypedExpr {
        dtype: DType::Bool(union_of(left, right)),
        expr,
    }
}

/// A boolean expression of two under an operator.
pub(crate) fn truth_by(
    alloc: Global,
    left: TypedExpr,
    operator: Operator,
    right: TypedExpr,
) -> Mem<TypedExpr>
    ensures { IfOk result (λ made. typed_view made ≡ truth_of (type_view left.dtype) (type_view right.dtype) (binary left.expr operator right.expr)) }
{
    let expr = BinaryExpr::new_expr(alloc, left.expr, operator, right.expr)?;
    Ok(truth_of(&left.dtype, &right.dtype, expr))
}

/// An operand where a boolean is asked: NULL is one. NoBoolean exactly where the operand is neither a boolean nor NULL.
pub fn as_boolean(alloc: Global, operand: &Operand) -> Result<TypedExpr, FormError>
    ensures { AnswersForm (as_boolean (operand_view operand.now)) result }
{
    if let Operand::UntypedNull = operand {
        return Ok(null_of(alloc, &DType::Bool(Nullability::Nullable))?);
    }
    if let Operand::Known(typed) = operand {
        if is_bool(&typed.dtype) {
            return Ok(typed.clone()?);
        }
    }
    Err(FormError::Mismatch(Mismatch::NoBoolean(operand.clone()?)))
}

/// Two booleans under `AND` or `OR`.
fn connective(
    alloc: Global,
    operator: Operator,
    left: &Operand,
    right: &Operand,
) -> Result<TypedExpr, FormError>
    ensures { AnswersForm (connective operator (operand_view left.now) (operand_view right.now)) result }
{
    let left = as_boolean(alloc, left)?;
    let right = as_boolean(alloc, right)?;
    Ok(truth_by(alloc, left, operator, right)?)
}

/// `left AND right`. NoBoolean exactly where an operand is neither a boolean nor NULL; the left one is told first.
pub fn conjunction(alloc: Global, left: &Operand, right: &Operand) -> Result<TypedExpr, FormError>
    ensures { AnswersForm (conjunction (operand_view left.now) (operand_view right.now)) result }
{
    connective(alloc, Operator::And, left, right)
}

/// `left OR right`. NoBoolean exactly where an operand is neither a boolean nor NULL; the left one is told first.
pub fn disjunction(alloc: Global, left: &Operand, right: &Operand) -> Result<TypedExpr, FormError>
    ensures { AnswersForm (disjunction (operand_view left.now) (operand_view right.now)) result }
{
    connective(alloc, Operator::Or, left, right)
}

/// `NOT operand`, and so `NOT BETWEEN`, `NOT IN` and `NOT LIKE`. NoBoolean exactly where the operand is neither a boolean nor NULL.
pub fn negation(alloc: Global, operand: &Operand) -> Result<TypedExpr, FormError>
    ensures { AnswersForm (negation (operand_view operand.now)) result }
{
    let TypedExpr { dtype, expr } = as_boolean(alloc, operand)?;
    let expr = not(alloc, expr)?;
    Ok(TypedExpr { dtype, expr })
}
