// Expressions that may be missing, joined or compared.
ghost use Rattle.std.specs.Prelude.{◌≡◌, IfOk};
ghost use Rattle.vx_dtype.specs.declared.CompareOperator.{CompareOperator};
ghost use Rattle.vx_expr.specs.Trees.{binary};
ghost use Rattle.vx_passes.specs.Falsifying.{and_of, behind_guard, compared_by, compared_where, is_zero_count, joined_known, one_value};

use std::alloc::Global;
use vx_build::{and, eq, lit};
use vx_dtype::{CompareOperator, Mem};
use vx_expr::{BinaryExpr, ExprRef, Operator};

/// Two expressions compared.
pub(crate) fn compared_by(
    alloc: Global,
    operator: CompareOperator,
    left: ExprRef,
    right: ExprRef,
) -> Mem<ExprRef>
    ensures { IfOk result (λ made. made ≡ compared_by operator left right) }
{
    BinaryExpr::new_expr(alloc, left, Operator::from(operator), right)
}

/// The first expression above the second, where both are there.
pub(crate) fn above(
    alloc: Global,
    left: Option<ExprRef>,
    right: Option<ExprRef>,
) -> Mem<Option<ExprRef>>
    ensures { IfOk result (λ made. made ≡ compared_where CompareOperator.Gt left right) }
{
    match (left, right) {
        (Some(left), Some(right)) => {
            Ok(Some(compared_by(alloc, CompareOperator::Gt, left, right)?))
        }
        _ => Ok(None),
    }
}

/// Both expressions joined where both are there, or the one that is.
pub(crate) fn joined_known(
    alloc: Global,
    operator: Operator,
    first: Option<ExprRef>,
    second: Option<ExprRef>,
) -> Mem<Option<ExprRef>>
    ensures { IfOk result (λ made. made ≡ joined_known (λ a b. binary a operator b) first second) }
{
    match (first, second) {
        (Some(first), Some(second)) => {
            Ok(Some(BinaryExpr::new_expr(alloc, first, operator, second)?))
        }
        (Some(first), None) => Ok(Some(first)),
        (None, second) => Ok(second),
    }
}

/// The test that a left and a right operand are one and the same value, by their bounds.
pub(crate) fn one_value(
    alloc: Global,
    least_left: ExprRef,
    greatest_left: ExprRef,
    least_right: ExprRef,
    greatest_right: ExprRef,
) -> Mem<ExprRef>
    ensures { IfOk result (λ made. made ≡ one_value least_left greatest_left least_right greatest_right) }
{
    let low = eq(alloc, least_left, greatest_right)?;
    let high = eq(alloc, greatest_left, least_right)?;
    and(alloc, low, high)
}

/// The test that a count is 0.
pub(crate) fn is_zero_count(alloc: Global, count: ExprRef) -> Mem<ExprRef>
    ensures { IfOk result (λ made. made ≡ is_zero_count count) }
{
    eq(alloc, count, lit(alloc, 0u64)?)
}

/// An expression behind a guard, where there is one.
pub(crate) fn behind_guard(alloc: Global, guard: Option<ExprRef>, expr: ExprRef) -> Mem<ExprRef>
    ensures { IfOk result (λ made. made ≡ behind_guard guard expr) }
{
    match guard {
        Some(guard) => and(alloc, guard, expr),
        None => Ok(expr),
    }
}
