// The nodes of a wire tree from the leaves up, so that a loop goes over them: a tree that code makes may be as deep as memory lets it be.
ghost use Rattle.std.specs.Prelude.{◌≡◌, map, IfOk};
ghost use Rattle.vx_wire_bytes.specs.WireViews.{tree_view};
ghost use Rattle.vx_wire.specs.WireOrders.{wire_nodes};

use std::alloc::Global;
use vx_dtype::Mem;
use vx_wire_bytes::WireTree;

/// The nodes of the tree, each after those below it, children in order.
pub(crate) fn tree_nodes(alloc: Global, tree: &WireTree) -> Mem<Vec<&WireTree>>
    ensures { IfOk result (λ nodes. map (λ t. tree_view t.now) nodes.items ≡ wire_nodes (tree_view tree.now)) }
{
    let mut nodes = Vec::new(alloc);
    let mut left = Vec::new(alloc);
    left.push(tree)?;
    while let Some(node) = left.pop() {
        nodes.push(node)?;
        for child in &node.children {
            left.push(child)?;
        }
    }
    nodes.reverse();
    Ok(nodes)
}
