// With which operand of a binary node a walk goes on by its loop, so that a chain to either side needs no call for each link.
ghost use Rattle.std.specs.Prelude.{◌≡◌};
ghost use Rattle.vx_expr.specs.Nodes.{binary_left, binary_operator, binary_right};
ghost use Rattle.vx_expr.specs.Leanings as lean;

use crate::expressions::{Expr, ExprRef};
use crate::exprs::binary::BinaryExpr;
use crate::operators::Operator;

/// Whether a walk goes on with the left operand: where it is under the same operator, or it alone is an `and` or an `or`.
pub(crate) fn leans_left(node: &BinaryExpr) -> bool
    ensures { result ≡ lean.leans_left (binary_operator node.now) (binary_left node.now) (binary_right node.now) }
{
    is_under(node.op(), node.lhs()) || (is_logical(node.lhs()) && !is_logical(node.rhs()))
}

/// Whether the node is two operands under this operator.
fn is_under(operator: Operator, expr: &ExprRef) -> bool
    ensures { result ≡ lean.is_under operator expr.now }
{
    match expr.expr() {
        Expr::Binary(node) => node.op() == operator,
        _ => false,
    }
}

/// Whether the node is an `and` or an `or`.
fn is_logical(expr: &ExprRef) -> bool
    ensures { result ≡ lean.is_logical expr.now }
{
    is_under(Operator::And, expr) || is_under(Operator::Or, expr)
}
