// Whether an expression has a text.
ghost use Rattle.std.specs.Prelude.{◌≡◌, IfOk};
ghost use Rattle.vx_text.specs.Writing.{is_writable};
ghost use Rattle.vx_text.specs.WritingParts.{is_dynamic};

use std::alloc::Global;
use vx_dtype::Mem;
use vx_expr::{Expr, ExprRef};

/// Whether the node is a dynamic comparison.
fn is_dynamic(expr: &ExprRef) -> bool
    ensures { result ≡ is_dynamic expr.now }
{
    matches!(expr.expr(), Expr::Dynamic(_))
}

/// Whether an expression has a text: no dynamic comparison stands in it.
pub(crate) fn is_writable(alloc: Global, expr: &ExprRef) -> Mem<bool>
    ensures { IfOk result (λ writable. writable ≡ is_writable expr.now) }
{
    let nodes = expr.post_order(alloc)?;
    for &node in nodes.as_slice() {
        if is_dynamic(node) {
            return Ok(false);
        }
    }
    Ok(true)
}
