//! Visits by reference.
ghost use Rattle.std.specs.Prelude.{◌≡◌, Result};
ghost use Rattle.std.specs.Fn.{CalledAt};
ghost use Rattle.vx_traversal.specs.declared.order.TraversalOrder.{TraversalOrder};
ghost use Rattle.vx_traversal.specs.Visits.{Visits, NoStep, without_order};

use crate::nodes::Node;
use crate::order::TraversalOrder;
use crate::walking::{ByClosureDown, ByClosureUp, walk_down, walk_node};

/// What is done at each node of a visit.
pub trait NodeVisitor<'a> {
    type NodeTy: Node;

    type Error;

    /// A call of `visit_down` in this state at this node may answer this, and leave this state.
    ghost down: { Self → Self.NodeTy → Result TraversalOrder Self.Error → Self → Type 0 };

    /// The same of `visit_up`.
    ghost up: { Self → Self.NodeTy → Result TraversalOrder Self.Error → Self → Type 0 };

    /// Called on a node before its children.
    fn visit_down(&mut self, node: &'a Self::NodeTy) -> Result<TraversalOrder, Self::Error>
        ensures { down self.old node.now result self.new };

    /// Called on a node after its children.
    fn visit_up(&mut self, node: &'a Self::NodeTy) -> Result<TraversalOrder, Self::Error>
        ensures { up self.old node.now result self.new };
}

/// Calls `f` on each node before its children, as a visit whose down is `f` and whose up goes on.
/// A chain of last children takes no stack; each other level does.
pub fn pre_order_visit_down<'a, T: Node, E, F: FnMut(&'a T) -> Result<TraversalOrder, E>>(
    tree: &'a T,
    mut f: F,
) -> Result<(), E>
where
    F: Drop,
    requires { F.IsAlwaysCallable f }
    ensures { (order : Result TraversalOrder E) × (last : F) × Visits T.children (CalledAt F.FnMut) NoStep T.height f tree.entry.now order last
        × (result ≡ without_order order) }
{
    walk_down::<ByClosureDown, &'a T, F>(tree, &mut f)?;
    Ok(())
}

/// Calls `f` on each node after its children, as a visit whose down goes on and whose up is `f`.
/// It goes along paths as `accept` does: a tree takes no stack for each level where at most one child
/// of each node is 64 levels deep or deeper, and a path of n nodes is gone over about log n times on
/// the way up.
pub fn pre_order_visit_up<'a, T: Node, E, F: FnMut(&'a T) -> Result<TraversalOrder, E>>(
    tree: &'a T,
    mut f: F,
) -> Result<(), E>
where
    F: Drop,
    requires { F.IsAlwaysCallable f }
    ensures { (order : Result TraversalOrder E) × (last : F) × Visits T.children NoStep (CalledAt F.FnMut) T.height f tree.entry.now order last
        × (result ≡ without_order order) }
{
    walk_node::<ByClosureUp, &'a T, F>(tree, &mut f)?;
    Ok(())
}
