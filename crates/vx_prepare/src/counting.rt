// How many nodes an expression has.
ghost use Rattle.std.specs.Prelude.{◌≡◌, ◌<◌, ◌^◌, length, IfOk};
ghost use Rattle.vx_semantics.specs.Nodes.{nodes_of};

use std::alloc::Global;
use vx_dtype::Mem;
use vx_expr::ExprRef;

/// The number of an expression's nodes, each counted as often as it is shared. NoMemory also where it is 2 ^ 64 or more: a tree that
/// shares its nodes may have more than a list could ever hold.
pub(crate) fn count_nodes(alloc: Global, expr: &ExprRef) -> Mem<u64>
    ensures number { IfOk result (λ n. n ≡ length (nodes_of expr.now)) }
    ensures few { IfOk result (λ n. n < 2 ^ 64) }
{
    let nodes = expr.post_order(alloc)?;
    Ok(nodes.len() as u64)
}
