//! The signal that steers a walk.
ghost use Rattle.std.specs.Prelude.{◌≡◌};
ghost use Rattle.vx_traversal.specs.Orders.{AnswersChildren, AnswersParent, ForGoingOn};

/// Where a walk goes on.
#[derive(Debug, Clone, Copy, PartialEq, Eq)]
pub enum TraversalOrder {
    /// On the way down the node's children are left out; on the way up the parent's step is.
    Skip,
    /// Nothing more is visited.
    Stop,
    /// The walk goes on.
    Continue,
}

impl TraversalOrder {
    /// The order after a node's children, which `f` visits: Continue for Skip, Stop for Stop, and
    /// for Continue what `f` answers.
    pub fn visit_children<E, F: FnOnce() -> Result<TraversalOrder, E>>(
        self,
        f: F,
    ) -> Result<TraversalOrder, E>
    where
        F: Drop,
        requires { ForGoingOn self (F.pre f) }
        ensures { AnswersChildren self (F.post f) result }
    {
        match self {
            TraversalOrder::Skip => Ok(TraversalOrder::Continue),
            TraversalOrder::Stop => Ok(self),
            TraversalOrder::Continue => f(),
        }
    }

    /// The order after a node's parent, which `f` visits: for Continue what `f` answers, else the
    /// order itself.
    pub fn visit_parent<E, F: FnOnce() -> Result<TraversalOrder, E>>(
        self,
        f: F,
    ) -> Result<TraversalOrder, E>
    where
        F: Drop,
        requires { ForGoingOn self (F.pre f) }
        ensures { AnswersParent self (F.post f) result }
    {
        match self {
            TraversalOrder::Continue => f(),
            TraversalOrder::Skip | TraversalOrder::Stop => Ok(self),
        }
    }
}
