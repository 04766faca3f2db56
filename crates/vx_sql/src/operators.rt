// Operators between two operands.
ghost use Rattle.sqlite_ast.specs.declared.Binary.{Binary};
ghost use Rattle.vx_laws_statements.specs.Expressions as spec;
ghost use Rattle.vx_sql_forms.specs.Views.{operand_view};
ghost use Rattle.vx_sql.specs.Answers.{AnswersBy};

use crate::refusals::{ExpressionError, Refusal};
use sqlite_ast::Binary;
use std::alloc::Global;
use vx_dtype::CompareOperator;
use vx_sql_forms::{
    Operand, comparison, conjunction, difference, disjunction, not_null_test, null_test,
    pattern_test, sum,
};

/// The form of an operator between two operands. Operator exactly where the operator isn't taken between them.
pub(crate) fn formed(
    alloc: Global,
    op: Binary,
    left: &Operand,
    right: &Operand,
) -> Result<Operand, ExpressionError>
    ensures { AnswersBy operand_view (spec.formed op (operand_view left.now) (operand_view right.now)) result }
{
    Ok(Operand::Known(match op {
        Binary::Or => disjunction(alloc, left, right)?,
        Binary::And => conjunction(alloc, left, right)?,
        Binary::Eq => comparison(alloc, CompareOperator::Eq, left, right)?,
        Binary::Ne => comparison(alloc, CompareOperator::NotEq, left, right)?,
        Binary::Lt => comparison(alloc, CompareOperator::Lt, left, right)?,
        Binary::Le => comparison(alloc, CompareOperator::Lte, left, right)?,
        Binary::Gt => comparison(alloc, CompareOperator::Gt, left, right)?,
        Binary::Ge => comparison(alloc, CompareOperator::Gte, left, right)?,
        Binary::Like => pattern_test(alloc, left, right)?,
        Binary::Add => sum(alloc, left, right)?,
        Binary::Sub => difference(alloc, left, right)?,
        Binary::Is => return null_tested(alloc, left, right),
        Binary::IsNot => return not_null_tested(alloc, left, right),
        other => return Err(ExpressionError::Refused(Refusal::Operator(other))),
    }))
}

/// `left IS NULL`. Operator exactly where something else stands behind IS.
fn null_tested(alloc: Global, left: &Operand, right: &Operand) -> Result<Operand, ExpressionError>
    ensures { AnswersBy operand_view (spec.formed Binary.Is (operand_view left.now) (operand_view right.now)) result }
{
    match right {
        Operand::UntypedNull => Ok(Operand::Known(null_test(alloc, left)?)),
        _ => Err(ExpressionError::Refused(Refusal::Operator(Binary::Is))),
    }
}

/// `left IS NOT NULL`. Operator exactly where something else stands behind IS NOT.
fn not_null_tested(
    alloc: Global,
    left: &Operand,
    right: &Operand,
) -> Result<Operand, ExpressionError>
    ensures { AnswersBy operand_view (spec.formed Binary.IsNot (operand_view left.now) (operand_view right.now)) result }
{
    match right {
        Operand::UntypedNull => Ok(Operand::Known(not_null_test(alloc, left)?)),
        _ => Err(ExpressionError::Refused(Refusal::Operator(Binary::IsNot))),
    }
}
