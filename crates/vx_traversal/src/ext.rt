//! The walks of every node.
ghost use Rattle.std.specs.Prelude.{IfOk};
ghost use Rattle.vx_traversal.specs.Folds.{Folds, FoldsUnder};
ghost use Rattle.vx_traversal.specs.Rewrites.{CalledWith, KeepsHeight, KeepsValue, Rewrites, UnlessNoMemory};
ghost use Rattle.vx_traversal.specs.UpSteps.{MakesUp, OfAnswer};
ghost use Rattle.vx_traversal.specs.Visits.{Visits};

use crate::errors::{Walk, WalkError};
use crate::fold::{FoldUp, NodeFolder, NodeFolderContext};
use crate::fold_steps::{FoldSteps, fold_tree};
use crate::folding::{Alone, InContext, fold_node};
use crate::nodes::Node;
use crate::order::TraversalOrder;
use crate::rewriter::NodeRewriter;
use crate::rewriting::{ByClosureDown, ByClosureUp, ByRewriter, rewrite_node};
use crate::transform::Transformed;
use crate::up_step::{UpStep, UpSteps};
use crate::visitor::NodeVisitor;
use crate::walking::{ByVisitor, walk_node};
use std::alloc::Global;
use vx_dtype::Mem;

/// The walks of every [`Node`].
pub trait NodeExt: Node {
    /// Visits the tree: down on the node first. After Stop the whole visit ends; after Skip the
    /// children are left out and up follows; after Continue the children are visited in order
    /// until one has the order Stop. Up follows the children where the last of them has the order
    /// Continue, or there are none, and its answer is the node's order; else the last child's
    /// order is. An error of the visitor ends the visit.
    ///
    /// No allocator is at hand for a list of the open nodes. So the visit goes along a path by a loop,
    /// from each node on to its deepest child, and back up by halves, which goes over a path of n nodes
    /// about log n times; the other children are visited by calls. A tree takes no stack for each level
    /// where at most one child of each node is 64 levels deep or deeper, as a chain of comparisons that
    /// `and` joins, to either side; each other child that deep takes a call.
    final fn accept<'a, V: NodeVisitor<'a, NodeTy = Self>>(
        &'a self,
        visitor: &mut V,
    ) -> Result<TraversalOrder, V::Error>
        ensures { Visits Self.children V.down V.up Self.height visitor.old self.entry.now result visitor.new }
    {
        walk_node::<ByVisitor, &'a Self, V>(self, visitor)
    }

    /// Rewrites the tree: down on the node first. After Stop the value that down gave stands; after
    /// Skip the children are left out and up follows; after Continue the children of that value are
    /// rewritten in order until one has the order Stop, and those after it stay. The value gets the
    /// new children where one was changed. Up follows the children where the last of them has the
    /// order Continue, or there are none; else the last child's order is the node's. It is changed
    /// where any answer said so. An error of the rewriter ends the rewrite.
    final fn rewrite<R: NodeRewriter<NodeTy = Self>>(
        self,
        alloc: Global,
        rewriter: &mut R,
    ) -> Walk<Transformed<Self>, R::Error>
        ensures { UnlessNoMemory result (Rewrites Self.children Self.is_with R.down R.up Self.height rewriter.old self result rewriter.new) }
    {
        rewrite_node::<ByRewriter, Self, R>(self, alloc, rewriter)
    }

    /// The rewrite whose down is `f` and whose up goes on. A value that `f` answers with Continue
    /// is no higher than the one that it was handed.
    final fn transform_down<E, F: FnMut(Self) -> Walk<Transformed<Self>, E>>(
        self,
        alloc: Global,
        mut f: F,
    ) -> Walk<Transformed<Self>, E>
    where
        F: Drop,
        requires callable { F.IsAlwaysCallable f }
        requires no_higher { KeepsHeight Self.height (CalledWith F.FnMut) }
        ensures { (last : F) × UnlessNoMemory result (Rewrites Self.children Self.is_with (CalledWith F.FnMut) KeepsValue Self.height f self result last) }
    {
        rewrite_node::<ByClosureDown, Self, F>(self, alloc, &mut f)
    }

    /// The rewrite whose down goes on and whose up is `f`.
    final fn transform_up<E, F: FnMut(Self) -> Walk<Transformed<Self>, E>>(
        self,
        alloc: Global,
        mut f: F,
    ) -> Walk<Transformed<Self>, E>
    where
        F: Drop,
        requires { F.IsAlwaysCallable f }
        ensures { (last : F) × UnlessNoMemory result (Rewrites Self.children Self.is_with KeepsValue (CalledWith F.FnMut) Self.height f self result last) }
    {
        rewrite_node::<ByClosureUp, Self, F>(self, alloc, &mut f)
    }

    /// What `step` makes of the tree from the leaves up, each node once its children are made; or what
    /// it refuses the first node with, in that order, that it can't make. A node is shared with the
    /// tree where nothing is made of it or of what stands below it.
    final fn transform_up_by<S: UpStep<NodeTy = Self>>(
        self,
        alloc: Global,
        step: &S,
    ) -> Walk<Self, S::Error>
        ensures { OfAnswer (MakesUp Self.children Self.is_with (S.makes step.now) Self.height self) result }
    {
        let mut steps = UpSteps {
            step,
            refused: None,
        };
        let made = fold_tree(&self, alloc, &mut steps)?;
        match steps.refused {
            Some(refused) => Err(WalkError::Visit(refused)),
            None => Ok(made.unwrap_or(self)),
        }
    }

    /// Folds the tree under a context: down on the node first. Skip gives the node's result, with no
    /// children and no up; Stop ends the whole fold, also from within a child; after Continue the
    /// children are folded in order under the context that it holds, and up gets their results in
    /// that order and the context that the node's own down got. An error of the folder ends the fold.
    final fn fold_context<F: NodeFolderContext<NodeTy = Self>>(
        self,
        alloc: Global,
        ctx: &F::Context,
        folder: &mut F,
    ) -> Walk<FoldUp<F::Result>, F::Error>
        ensures { UnlessNoMemory result (FoldsUnder Self.children F.down F.up Self.height folder.old ctx.now self result folder.new) }
    {
        fold_node::<InContext, F>(self, alloc, ctx, folder)
    }

    /// Folds the tree: as `fold_context`, without a context.
    final fn fold<F: NodeFolder<NodeTy = Self>>(
        self,
        alloc: Global,
        folder: &mut F,
    ) -> Walk<FoldUp<F::Result>, F::Error>
        ensures { UnlessNoMemory result (Folds Self.children F.down F.up Self.height folder.old self result folder.new) }
    {
        fold_node::<Alone, F>(self, alloc, &(), folder)
    }

    /// Folds the tree by steps that say what the fold does to a whole tree: down on the node first.
    /// Where it gives no result, the children are folded in order, and up gets their results. Refuses
    /// only where memory runs out.
    final fn fold_by<F: FoldSteps<NodeTy = Self>>(
        &self,
        alloc: Global,
        steps: &mut F,
    ) -> Mem<F::Result>
        requires { F.ready steps.old self.now }
        ensures { IfOk result (λ given. F.folds steps.old self.now given steps.new) }
    {
        fold_tree(self, alloc, steps)
    }
}

impl<T: Node> NodeExt for T {}
