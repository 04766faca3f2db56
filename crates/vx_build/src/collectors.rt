// Operands of one operator, joined one after another.
ghost use Rattle.std.specs.Prelude.{◌≡◌, IfOk};
ghost use Rattle.vx_expr.specs.declared.Operator.{Operator};
ghost use Rattle.vx_build.specs.Collectors.{joined_right, joined_left};

use std::alloc::Global;
use vx_dtype::Mem;
use vx_expr::{BinaryExpr, ExprRef, Operator};

/// The values joined by `and`, nested to the right: of x, y and z `x and (y and z)`. None exactly for the empty list.
pub fn and_collect(alloc: Global, values: Vec<ExprRef>) -> Mem<Option<ExprRef>>
    ensures { IfOk result (λ made. made ≡ joined_right Operator.And values.items) }
{
    join_right(alloc, Operator::And, values)
}

/// The values joined by `or`, nested to the right: of x, y and z `x or (y or z)`. None exactly for the empty list.
pub fn or_collect(alloc: Global, values: Vec<ExprRef>) -> Mem<Option<ExprRef>>
    ensures { IfOk result (λ made. made ≡ joined_right Operator.Or values.items) }
{
    join_right(alloc, Operator::Or, values)
}

/// The values joined by `and`, nested to the left: of x, y and z `(x and y) and z`. None exactly for the empty list.
#[tactic(auto, using(crate::proofs::CollectorLemmas::joined_after_last))]
pub fn and_collect_right(alloc: Global, values: Vec<ExprRef>) -> Mem<Option<ExprRef>>
    ensures { IfOk result (λ made. made ≡ joined_left Operator.And values.items) }
{
    let mut rest = values.into_iter();
    let Some(mut joined) = rest.next() else {
        return Ok(None);
    };
    for next in rest {
        joined = BinaryExpr::new_expr(alloc, joined, Operator::And, next)?;
    }
    Ok(Some(joined))
}

/// The values under an operator, nested to the right. None exactly for the empty list.
#[tactic(auto, using(crate::proofs::CollectorLemmas::joined_right_last))]
fn join_right(alloc: Global, operator: Operator, mut values: Vec<ExprRef>) -> Mem<Option<ExprRef>>
    ensures { IfOk result (λ made. made ≡ joined_right operator values.items) }
{
    let Some(mut joined) = values.pop() else {
        return Ok(None);
    };
    while let Some(next) = values.pop() {
        joined = BinaryExpr::new_expr(alloc, next, operator, joined)?;
    }
    Ok(Some(joined))
}
