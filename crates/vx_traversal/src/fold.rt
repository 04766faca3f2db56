//! Folds by value.
ghost use Rattle.std.specs.Prelude.{◌≡◌, List, Result};
ghost use Rattle.vx_traversal.specs.declared.errors.WalkError.{WalkError};
ghost use Rattle.vx_traversal.specs.declared.fold.FoldDown.{FoldDown};
ghost use Rattle.vx_traversal.specs.declared.fold.FoldDownContext.{FoldDownContext};
ghost use Rattle.vx_traversal.specs.declared.fold.FoldUp.{FoldUp};
ghost use Rattle.vx_traversal.specs.Folds.{folded_value};

use crate::errors::Walk;
use crate::nodes::Node;

/// What a folder answers before a node's children.
#[derive(Debug, Drop)]
pub enum FoldDown<R> {
    /// The children are folded.
    Continue,
    /// The whole fold ends with this result.
    Stop(R),
    /// The node has this result, and its children and its up are left out.
    Skip(R),
}

/// What a folder with a context answers before a node's children.
#[derive(Debug, Drop)]
pub enum FoldDownContext<C, R> {
    /// The children are folded under this context.
    Continue(C),
    /// The whole fold ends with this result.
    Stop(R),
    /// The node has this result, and its children and its up are left out.
    Skip(R),
}

/// What a fold of a node answers.
#[derive(Debug, Drop)]
pub enum FoldUp<R> {
    /// The node has this result.
    Continue(R),
    /// The whole fold ends with this result.
    Stop(R),
}

impl<R> FoldUp<R> {
    /// The result.
    pub fn value(self) -> R
        ensures { result ≡ folded_value self }
    {
        match self {
            FoldUp::Continue(result_of_node) => result_of_node,
            FoldUp::Stop(result_of_all) => result_of_all,
        }
    }
}

/// What is done at each node of a fold with a context.
pub trait NodeFolderContext {
    type NodeTy: Node;

    type Result: Drop;

    type Context: Drop;

    type Error;

    /// A call of `visit_down` in this state under this context at this node may answer this, and
    /// leave this state.
    ghost down: { Self → Self.Context → Self.NodeTy → Result (FoldDownContext Self.Context Self.Result) (WalkError Self.Error) → Self → Type 0 };

    /// The same of `visit_up`, with the results of the children.
    ghost up: { Self → Self.NodeTy → Self.Context → List Self.Result → Result (FoldUp Self.Result) (WalkError Self.Error) → Self → Type 0 };

    /// Called on a node before its children, under the context of its parent.
    fn visit_down(
        &mut self,
        ctx: &Self::Context,
        node: &Self::NodeTy,
    ) -> Walk<FoldDownContext<Self::Context, Self::Result>, Self::Error>
        ensures { down self.old ctx.now node.now result self.new };

    /// Called on a node after its children, under the context that its down got and with their
    /// results in order.
    fn visit_up(
        &mut self,
        node: Self::NodeTy,
        ctx: &Self::Context,
        children: Vec<Self::Result>,
    ) -> Walk<FoldUp<Self::Result>, Self::Error>
        ensures { up self.old node ctx.now children.items result self.new };
}

/// What is done at each node of a fold.
pub trait NodeFolder {
    type NodeTy: Node;

    type Result: Drop;

    type Error;

    /// A call of `visit_down` in this state at this node may answer this, and leave this state.
    ghost down: { Self → Self.NodeTy → Result (FoldDown Self.Result) (WalkError Self.Error) → Self → Type 0 };

    /// The same of `visit_up`, with the results of the children.
    ghost up: { Self → Self.NodeTy → List Self.Result → Result (FoldUp Self.Result) (WalkError Self.Error) → Self → Type 0 };

    /// Called on a node before its children.
    fn visit_down(&mut self, node: &Self::NodeTy) -> Walk<FoldDown<Self::Result>, Self::Error>
        ensures { down self.old node.now result self.new };

    /// Called on a node after its children, with their results in order.
    fn visit_up(
        &mut self,
        node: Self::NodeTy,
        children: Vec<Self::Result>,
    ) -> Walk<FoldUp<Self::Result>, Self::Error>
        ensures { up self.old node children.items result self.new };
}
