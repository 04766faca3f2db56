//! Expressions as nodes.

use crate::containers::{CloneContainer, ElementMapper, Holds, NodeContainer, map_single};
use crate::errors::Walk;
use crate::nodes::Node;
use crate::order::TraversalOrder;
use crate::transform::Transformed;
use std::alloc::Global;
use vx_dtype::{Mem, NoMemory};
use vx_expr::{ExprError, ExprRef, VortexExpr};

/// An expression is a node with the children of its kind.
impl Node for ExprRef {
    ghost use Rattle.std.specs.Prelude.{◌≡◌, IfOk, length};
    ghost use Rattle.vx_expr.specs.Trees.{children_of};
    ghost use Rattle.vx_traversal.specs.Expressions.{node_height, IsWithChildren};
    ghost use Rattle.vx_traversal.specs.ExpressionLaws.{child_is_lower, has_given};

    ghost children = { children_of };

    ghost height = { node_height };

    ghost is_with = { IsWithChildren };

    fn children_count(&self) -> usize {
        VortexExpr::children_count(self)
    }

    fn node_child(&self, i: usize) -> &ExprRef {
        self.child_at(i)
    }

    #[tactic(auto, using(crate::specs::ExpressionLaws::rebuilt))]
    fn with_node_children(&self, alloc: Global, replacements: Vec<ExprRef>) -> Mem<ExprRef>
        requires { length replacements.items ≡ length (children_of self.now) }
        ensures { IfOk result (IsWithChildren self.now replacements.items) }
    {
        match self.with_children(alloc, replacements) {
            Ok(rebuilt) => Ok(rebuilt),
            Err(ExprError::NoMemory) => Err(NoMemory),
            Err(_) => unreachable!(),
        }
    }

    ghost child_is_lower = { child_is_lower };

    ghost has_given = { has_given };

    ghost clone_is_equal = { λ expr copy is. is };
}

/// An expression is a container of itself alone.
impl Holds<ExprRef> for ExprRef {
    ghost use Rattle.std.specs.Prelude.{[], ◌∷◌};
    ghost use Rattle.vx_traversal.specs.ContainerShapes.{one_element};

    ghost elements = { λ expr. expr ∷ [] };

    ghost shape = { λ _. one_element };
}

impl<'a> NodeContainer<'a, ExprRef> for ExprRef {
    ghost use Rattle.vx_traversal.specs.Containers.{left_of_one};

    type Cursor = bool;

    ghost left = { λ expr passed. left_of_one passed expr };

    fn cursor() -> bool {
        false
    }

    fn next_element(&'a self, cursor: &mut bool) -> Option<&'a ExprRef> {
        if *cursor {
            return None;
        }
        *cursor = true;
        Some(self)
    }

    fn map_elements_after<M, F: ElementMapper<M, ExprRef>>(
        self,
        _alloc: Global,
        last: TraversalOrder,
        f: &mut F,
    ) -> Walk<Transformed<Self>, F::Error> {
        map_single(self, last, f)
    }
}

impl CloneContainer<ExprRef> for ExprRef {
    ghost use Rattle.std.specs.Prelude.{[], ◌∷◌};
    ghost use Rattle.std.proofs.Common.{ap, refl};

    ghost clone_keeps = { λ expr copy is. (ap (λ e. e ∷ []) is, refl) };
}
