// The passes that make an expression anew from the leaves up, each as a step of the one walk.
ghost use Rattle.std.specs.Prelude.{◌≡◌, Result};
ghost use Rattle.vx_expr.specs.Trees.{Tree};
ghost use Rattle.vx_semantics.specs.Typing.{Refusal};
ghost use Rattle.vx_passes.specs.Rebuilding.{rebuilt};
ghost use Rattle.vx_transform.specs.TransformAnswers.{AnswersBy, AnswersTree};
ghost use Rattle.vx_transform.specs.Rebuilds.{or_same};

use crate::errors::TransformError;
use std::alloc::Global;
use vx_expr::ExprRef;
use vx_traversal::{NodeExt, UpStep, WalkError};

/// What a pass makes of a node whose children are made.
pub(crate) trait Step {
    ghost step: { Self → Tree → Result Tree Refusal };

    /// What stands in the node's place, and None where the node stays.
    fn at(&self, alloc: Global, node: &ExprRef) -> Result<Option<ExprRef>, TransformError>
        ensures { AnswersBy (or_same node.now) (step self.now node.now) result };
}

/// A pass's step as one of a walk.
#[derive(Drop)]
struct OfPass<'a, S> {
    step: &'a S,
}

impl<S: Step> UpStep for OfPass<'_, S> {
    type NodeTy = ExprRef;

    type Error = TransformError;

    ghost makes = { λ pass node made. AnswersTree (S.step pass.step.now node) made };

    fn at(&self, alloc: Global, node: &ExprRef) -> Result<Option<ExprRef>, TransformError> {
        self.step.at(alloc, node)
    }
}

/// The expression made anew from the leaves up; a node that nothing changes is shared with the expression.
pub(crate) fn rebuild<S: Step>(
    alloc: Global,
    expr: ExprRef,
    step: &S,
) -> Result<ExprRef, TransformError>
    ensures { AnswersTree (rebuilt (S.step step.now) expr) result }
{
    match expr.transform_up_by(alloc, &OfPass { step }) {
        Ok(made) => Ok(made),
        Err(WalkError::NoMemory) => Err(TransformError::NoMemory),
        Err(WalkError::Visit(refused)) => Err(refused),
    }
}
