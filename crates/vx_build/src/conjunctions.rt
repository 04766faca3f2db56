// The conjuncts of a filter: the operands of its nested `and`s, left to right.
ghost use Rattle.std.specs.Prelude.{◌≡◌, [], ◌∷◌, None, IfOk, IfSome};
ghost use Rattle.vx_expr.specs.declared.Operator.{Operator};
ghost use Rattle.vx_expr.specs.Conjuncts.{conjuncts_of};
ghost use Rattle.vx_expr.specs.Trees.{binary};

use std::alloc::Global;
use vx_dtype::Mem;
use vx_expr::{Expr, ExprRef, Operator};

/// The conjuncts of an expression, left to right: the expression itself where it is no `and`.
pub fn conjuncts(alloc: Global, expr: &ExprRef) -> Mem<Vec<ExprRef>>
    ensures { IfOk result (λ found. found.items ≡ conjuncts_of expr.now) }
{
    let mut found = Vec::new(alloc);
    let mut left = Vec::new(alloc);
    left.push(expr)?;
    while let Some(part) = left.pop() {
        match operands_of_and(part) {
            Some((first, second)) => {
                left.push(second)?;
                left.push(first)?;
            }
            None => found.push(part.clone()?)?,
        }
    }
    Ok(found)
}

/// The same list of conjuncts.
pub fn split_conjunction(alloc: Global, expr: &ExprRef) -> Mem<Vec<ExprRef>>
    ensures { IfOk result (λ found. found.items ≡ conjuncts_of expr.now) }
{
    conjuncts(alloc, expr)
}

/// The two operands of an `and`, and None of another node.
#[tactic(auto, unfolding(vx_expr::specs::Conjuncts::conjuncts_of))]
pub fn operands_of_and(expr: &ExprRef) -> Option<(&ExprRef, &ExprRef)>
    ensures operands { IfSome result (λ pair. expr.now ≡ binary pair.0.now Operator.And pair.1.now) }
    ensures alone { result ≡ None → conjuncts_of expr.now ≡ expr.now ∷ [] }
{
    if let Expr::Binary(node) = expr.expr() {
        if node.op() == Operator::And {
            return Some((node.lhs(), node.rhs()));
        }
    }
    None
}
