// Wire trees of expressions.
ghost use Rattle.std.specs.Prelude.{◌≡◌, ◌≤◌, true, map, Decides, IfOk, IfErr};
ghost use Rattle.vx_dtype.specs.TypeViews.{type_view};
ghost use Rattle.vx_dtype.specs.TypeRules.{depth_of, most_deep};
ghost use Rattle.vx_expr.specs.Trees.{Tree, children_of};
ghost use Rattle.vx_wire_bytes.specs.WireViews.{tree_view};
ghost use Rattle.vx_wire.specs.Encodings.{is_default_kind};
ghost use Rattle.vx_wire.specs.Forms.{wire_of, Everywhere};
ghost use Rattle.vx_wire.specs.Metadata.{HasMetadata, IsSerializable, HasShortMetadata, IsNoEmptyMerge};
ghost use Rattle.vx_wire.specs.Building.{IsBuilt};
ghost use Rattle.vx_wire.specs.Serializing.{IsWritten, IsUnwrittenLong, IsUnserialized};

use crate::spelling::metadata_of;
use std::alloc::Global;
use vx_dtype::{DType, MOST_DEEP, Mem, Text};
use vx_expr::{Expr, ExprRef, VortexExpr};
use vx_wire_bytes::{WireError, WireTree};

/// Whether a type is no deeper than the wire form allows.
fn is_shallow(dtype: &DType) -> bool
    ensures { Decides result (depth_of (type_view dtype.now) ≤ most_deep) }
{
    dtype.depth() <= MOST_DEEP
}

/// Whether a node is of a kind that is written, with no type of its own deeper than 64, whatever stands below it.
pub fn is_node_serializable(expr: &ExprRef) -> bool
    ensures { Decides result (IsSerializable expr.now) }
{
    match expr.expr() {
        Expr::Cast(node) => is_shallow(node.target()),
        Expr::Literal(node) => is_shallow(node.value().dtype()),
        Expr::Dynamic(_) => false,
        _ => true,
    }
}

/// Whether each node of an expression is of a kind that is written, with no type that is too deep.
fn is_serializable(alloc: Global, expr: &ExprRef) -> Mem<bool>
    ensures { IfOk result (λ written. Decides written (Everywhere IsSerializable expr.now)) }
{
    let nodes = expr.post_order(alloc)?;
    for &node in nodes.as_slice() {
        if !is_node_serializable(node) {
            return Ok(false);
        }
    }
    Ok(true)
}

/// The wire tree of an expression whose nodes are all of kinds that are written.
fn tree_of(alloc: Global, expr: &ExprRef) -> Result<WireTree, WireError>
    requires { Everywhere IsSerializable expr.now }
    ensures form { IfOk result (λ tree. tree_view tree ≡ wire_of expr.now) }
    ensures written { IfOk result (λ tree. Everywhere IsWritten expr.now) }
    ensures err { IfErr result (IsUnwrittenLong (Everywhere HasShortMetadata expr.now)) }
{
    let nodes = expr.post_order(alloc)?;
    let mut made: Vec<WireTree> = Vec::new(alloc);
    for &node in nodes.as_slice() {
        let children = made.split_off(made.len() - node.children_count())?;
        made.push(node_tree(alloc, node, children)?)?;
    }
    match made.pop() {
        Some(tree) => Ok(tree),
        None => unreachable!(),
    }
}

/// The wire tree of a node over those of its children.
fn node_tree(alloc: Global, node: &ExprRef, children: Vec<WireTree>) -> Result<WireTree, WireError>
    requires kind { IsSerializable node.now }
    requires children { map tree_view children.items ≡ map wire_of (children_of node.now) }
    ensures form { IfOk result (λ tree. tree_view tree ≡ wire_of node.now) }
    ensures written { IfOk result (λ tree. IsWritten node.now) }
    ensures err { IfErr result (IsUnwrittenLong (HasShortMetadata node.now)) }
{
    let metadata = metadata_of(alloc, node)?;
    let id = Text::new(alloc, node.id())?;
    Ok(WireTree {
        id,
        metadata,
        children,
    })
}

/// Expressions that are written as wire trees.
pub trait ExprSerializeProtoExt {
    ghost tree: { Self → Tree };

    /// The wire tree of the expression, which the default registry builds again if no merge in it is empty.
    ///
    /// Refuses with `NotSerializable` exactly where a dynamic comparison, or a type deeper than 64, is in the expression, and
    /// else with `TooLong` exactly where a text or a list in the metadata of a node has 2^32 or more.
    fn serialize_proto(&self, alloc: Global) -> Result<WireTree, WireError>
        ensures form { IfOk result (λ written. tree_view written ≡ wire_of (tree self.now)) }
        ensures spelled { IfOk result (λ written. Everywhere HasMetadata (tree self.now)) }
        ensures builds { IfOk result (λ written. Everywhere IsNoEmptyMerge (tree self.now) → IsBuilt is_default_kind (tree_view written) (tree self.now)) }
        ensures refused { IfErr result (IsUnserialized (tree self.now)) };
}

impl ExprSerializeProtoExt for ExprRef {
    ghost tree = { λ e. e };

    fn serialize_proto(&self, alloc: Global) -> Result<WireTree, WireError> {
        if !is_serializable(alloc, self)? {
            return Err(WireError::NotSerializable);
        }
        tree_of(alloc, self)
    }
}
