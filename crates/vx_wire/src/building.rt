// Expressions built from wire trees.
ghost use Rattle.std.specs.Prelude.{IfOk, IfErr};
ghost use Rattle.vx_wire_bytes.specs.LeftToWrite.{children_in};
ghost use Rattle.vx_wire_bytes.specs.WireViews.{tree_view};
ghost use Rattle.vx_wire.specs.Registries.{registered};
ghost use Rattle.vx_wire.specs.Building.{AreBuiltTo, IsBuilt, IsUnbuilt};

use crate::errors::BuildError;
use crate::registries::ExprRegistry;
use crate::tree_nodes::tree_nodes;
use std::alloc::Global;
use vx_expr::ExprRef;
use vx_wire_bytes::WireTree;

/// The expression that a wire tree builds, where the registry holds the kind of each node.
///
/// Refuses with the refusal of the first node in post-order that has one: `UnknownExpr` where the registry holds no kind of the
/// node's name, else `BadMetadata` where the metadata is no spelling of the kind's, else `WrongChildren` where the kind takes
/// more or fewer children.
pub fn deserialize_expr_proto(
    alloc: Global,
    tree: &WireTree,
    registry: &ExprRegistry,
) -> Result<ExprRef, BuildError>
    ensures built { IfOk result (λ e. IsBuilt (registered registry.now) (tree_view tree.now) e) }
    ensures refused { IfErr result (λ why. IsUnbuilt (registered registry.now) (tree_view tree.now) why) }
{
    let nodes = tree_nodes(alloc, tree)?;
    let mut made: Vec<ExprRef> = Vec::new(alloc);
    for &node in nodes.as_slice() {
        let children = made.split_off(made.len() - node.children.len())?;
        made.push(node_expr(alloc, node, registry, children)?)?;
    }
    match made.pop() {
        Some(expr) => Ok(expr),
        None => unreachable!(),
    }
}

/// The expression of a node over those of its children.
fn node_expr(
    alloc: Global,
    node: &WireTree,
    registry: &ExprRegistry,
    children: Vec<ExprRef>,
) -> Result<ExprRef, BuildError>
    requires { AreBuiltTo (registered registry.now) (children_in (tree_view node.now)) children.items }
    ensures built { IfOk result (λ e. IsBuilt (registered registry.now) (tree_view node.now) e) }
    ensures refused { IfErr result (λ why. IsUnbuilt (registered registry.now) (tree_view node.now) why) }
{
    let Some(kind) = registry.get(node.id.as_str()) else {
        return Err(BuildError::UnknownExpr);
    };
    kind.build(alloc, &node.metadata, children)
}
