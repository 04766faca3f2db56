//! What a tree is.
ghost use Rattle.std.specs.Prelude.{◌≡◌, ℕ, ◌<◌, List, Contains, length, slice_get, map, IfOk};
ghost use Rattle.std.specs.Fn.{CalledAt};
ghost use Rattle.vx_traversal.specs.Rewrites.{CalledWith, MapsChildren, Rebuilds, UnlessNoMemory};
ghost use Rattle.vx_traversal.specs.Visits.{InTurn};

use crate::errors::Walk;
use crate::order::TraversalOrder;
use crate::rewriting::{ByClosureUp, map_children_alone};
use crate::transform::Transformed;
use std::alloc::Global;
use vx_dtype::Mem;

/// A tree: a node has its children in order, and a height above the height of each child.
pub trait Node: Sized + Clone {
    /// The children in order.
    ghost children: { Self → List Self };

    /// A number above the height of each child.
    ghost height: { Self → ℕ };

    /// Holds of a node, a list of children and the node with these in place of its own.
    ghost is_with: { Self → List Self → Self → Type 0 };

    /// How many children the node has.
    fn children_count(&self) -> usize
        ensures { result ≡ length (children self.now) };

    /// The child at the place `i`, counted from 0.
    fn node_child(&self, i: usize) -> &Self
        requires { i < length (children self.now) }
        ensures { slice_get (children self.now) i ≡ Some result.now };

    /// The node with these children in place of its own, of the same number. Refuses only where
    /// memory runs out.
    fn with_node_children(&self, alloc: Global, replacements: Vec<Self>) -> Mem<Self>
        requires { length replacements.items ≡ length (children self.now) }
        ensures { IfOk result (is_with self.now replacements.items) };

    /// A child is lower than its node.
    ghost child_is_lower: { (node child : Self) → Contains (children node) child → height child < height node };

    /// A rebuilt node has the children that it was given.
    ghost has_given: { (node rebuilt : Self) (given : List Self) → length given ≡ length (children node) → is_with node given rebuilt →
        children rebuilt ≡ given };

    /// A clone equals its original.
    ghost clone_is_equal: { (node copy : Self) → Self.is_clone node copy → copy ≡ node };

    /// Hands the children over in order until `f` answers Stop or an error: the order is the last
    /// answer, or Continue without children.
    final fn apply_children<'a, E, F: FnMut(&'a Self) -> Result<TraversalOrder, E>>(
        &'a self,
        mut f: F,
    ) -> Result<TraversalOrder, E>
    where
        F: Drop,
        requires { F.IsAlwaysCallable f }
        ensures { (last : F) × InTurn (CalledAt F.FnMut) TraversalOrder.Continue f (children self.entry.now) result last }
    {
        let mut last = TraversalOrder::Continue;
        for i in 0..self.children_count() {
            match f(self.node_child(i))? {
                TraversalOrder::Stop => return Ok(TraversalOrder::Stop),
                order => last = order,
            }
        }
        Ok(last)
    }

    /// What `f` gives for the children in order.
    final fn iter_children<T, F: FnOnce(Vec<&Self>) -> T>(&self, alloc: Global, f: F) -> Mem<T>
    where
        F: Drop,
        requires { F.IsAlwaysCallable f }
        ensures { IfOk result (λ given. (list : _) × F.post f list given × (map (λ child. child.now) list.items ≡ children self.now)) }
    {
        let mut list = Vec::new(alloc);
        for i in 0..self.children_count() {
            list.push(self.node_child(i))?;
        }
        Ok(f(list))
    }

    /// The node with what `f` gives for its children: they are handed over in order until `f`
    /// answers Stop or an error, and those after a Stop stay as they are. The node gets the new
    /// children where one was changed, else it stays; the order is the last answer, or Continue
    /// without children.
    final fn map_children<E, F: FnMut(Self) -> Walk<Transformed<Self>, E>>(
        self,
        alloc: Global,
        mut f: F,
    ) -> Walk<Transformed<Self>, E>
    where
        F: Drop,
        requires { F.IsAlwaysCallable f }
        ensures { (last : F) × UnlessNoMemory result (MapsChildren children is_with (CalledWith F.FnMut) f self result last) }
    {
        map_children_alone::<ByClosureUp, Self, F>(self, alloc, &mut f)
    }
}

// The node with these children in place of its own where one was changed, else the node.
pub(crate) fn rebuild<N: Node, E>(
    node: N,
    alloc: Global,
    values: Vec<N>,
    order: TraversalOrder,
    changed: bool,
) -> Walk<Transformed<N>, E>
    requires { length values.items ≡ length (N.children node) }
    ensures { UnlessNoMemory result (Rebuilds N.is_with node (Ok (record { value = values.items; order = order; changed = changed })) result) }
{
    let value = if changed {
        node.with_node_children(alloc, values)?
    } else {
        node
    };
    Ok(Transformed {
        value,
        order,
        changed,
    })
}

// The child at the place `i`, as a value of its own.
pub(crate) fn clone_child<N: Node>(node: &N, i: usize) -> Mem<N>
    requires { i < length (N.children node.now) }
    ensures child { IfOk result (λ child. slice_get (N.children node.now) i ≡ Some child) }
    ensures lower { IfOk result (λ child. N.height child < N.height node.now) }
{
    Ok(node.node_child(i).clone()?)
}
