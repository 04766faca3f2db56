//! Rewrites by value.
ghost use Rattle.std.specs.Prelude.{Result};
ghost use Rattle.vx_traversal.specs.declared.errors.WalkError.{WalkError};
ghost use Rattle.vx_traversal.specs.declared.transform.Transformed.{Transformed};
ghost use Rattle.vx_traversal.specs.Rewrites.{IsNoHigher};

use crate::errors::Walk;
use crate::nodes::Node;
use crate::transform::Transformed;

/// What is done at each node of a rewrite.
pub trait NodeRewriter {
    type NodeTy: Node;

    type Error;

    /// A call of `visit_down` in this state at this node may answer this, and leave this state.
    ghost down: { Self → Self.NodeTy → Result (Transformed Self.NodeTy) (WalkError Self.Error) → Self → Type 0 };

    /// The same of `visit_up`.
    ghost up: { Self → Self.NodeTy → Result (Transformed Self.NodeTy) (WalkError Self.Error) → Self → Type 0 };

    /// Called on a node before its children. A value that is answered with Continue is no higher
    /// than the node: else a rewrite needn't end.
    fn visit_down(&mut self, node: Self::NodeTy) -> Walk<Transformed<Self::NodeTy>, Self::Error>
        ensures step { down self.old node result self.new }
        ensures no_higher { IsNoHigher Self.NodeTy.height node result };

    /// Called on a node after its children.
    fn visit_up(&mut self, node: Self::NodeTy) -> Walk<Transformed<Self::NodeTy>, Self::Error>
        ensures { up self.old node result self.new };
}
