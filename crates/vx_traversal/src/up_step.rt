//! What is made of trees from the leaves up by a step that hangs on the node alone.
ghost use Rattle.std.specs.Prelude.{◌≡◌, Result, IfOk, is_none, length, unwrap_or, ⊤};
ghost use Rattle.std.specs.List.{list_all};
ghost use Rattle.vx_traversal.specs.UpSteps.{IsOver, in_place};
ghost use Rattle.vx_traversal.specs.UpFolds.{GathersTree, MakesTree, in_places};

use crate::fold_steps::FoldSteps;
use crate::nodes::Node;
use std::alloc::Global;
use vx_dtype::Mem;

/// What is made of each node of a tree, once its children are made: it hangs on the node alone, and
/// not on what was made of other nodes.
pub trait UpStep {
    type NodeTy: Node;

    type Error: Drop;

    /// A call at this node may make this of it, or refuse it so.
    ghost makes: { Self → Self.NodeTy → Result Self.NodeTy Self.Error → Type 0 };

    /// What stands in the node's place; None where the node stays.
    fn at(&self, alloc: Global, node: &Self::NodeTy) -> Result<Option<Self::NodeTy>, Self::Error>
        ensures { makes self.now node.now (in_place node.now result) };
}

// A step as the steps of a fold: a node's result is what stands in its place, None where it stays.
// The first refusal is kept, and after it nothing is made.
#[derive(Drop)]
pub(crate) struct UpSteps<'a, S, E> {
    pub(crate) step: &'a S,
    pub(crate) refused: Option<E>,
}

impl<S: UpStep> FoldSteps for UpSteps<'_, S, S::Error> {
    type NodeTy = S::NodeTy;

    type Result = Option<S::NodeTy>;

    ghost ready = { λ _ _. ⊤ };

    ghost folds = { MakesTree S.NodeTy.children S.NodeTy.is_with S.makes S.NodeTy.height };

    ghost gathers = { GathersTree S.NodeTy.children S.NodeTy.is_with S.makes S.NodeTy.height };

    fn down(&mut self, _alloc: Global, _node: &S::NodeTy) -> Mem<Option<Option<S::NodeTy>>> {
        match self.refused {
            Some(_) => Ok(Some(None)),
            None => Ok(None),
        }
    }

    fn up(
        &mut self,
        alloc: Global,
        node: &S::NodeTy,
        results: &[Option<S::NodeTy>],
    ) -> Mem<Option<S::NodeTy>> {
        if self.refused.is_some() {
            return Ok(None);
        }
        let over = over_made(node, alloc, results)?;
        match self.step.at(alloc, made_or(&over, node)) {
            Ok(Some(made)) => Ok(Some(made)),
            Ok(None) => Ok(over),
            Err(refused) => {
                self.refused = Some(refused);
                Ok(None)
            }
        }
    }
}

// What was made of a node, and where nothing was, the node.
fn made_or<'a, N>(made: &'a Option<N>, node: &'a N) -> &'a N
    ensures { result.now ≡ unwrap_or made.now node.now }
{
    match made {
        Some(made) => made,
        None => node,
    }
}

// The node over what was made of its children; None where nothing was made of any.
fn over_made<N: Node>(node: &N, alloc: Global, made: &[Option<N>]) -> Mem<Option<N>>
    requires { length made.now ≡ length (N.children node.now) }
    ensures { IfOk result (λ over. IsOver N.children N.is_with node.now (in_places (N.children node.now) made.now) (unwrap_or over node.now)) }
{
    if all_stay(made) {
        return Ok(None);
    }
    let mut children = Vec::new(alloc);
    for i in 0..made.len() {
        children.push(copy_of(made_or(&made[i], node.node_child(i)))?)?;
    }
    Ok(Some(node.with_node_children(alloc, children)?))
}

// The node, as a value of its own.
fn copy_of<N: Node>(node: &N) -> Mem<N>
    ensures { IfOk result (λ copy. copy ≡ node.now) }
{
    Ok(node.clone()?)
}

// Whether nothing was made of any of these nodes.
fn all_stay<N>(made: &[Option<N>]) -> bool
    ensures { result ≡ list_all is_none made.now }
{
    made.iter().all(|made| made.is_none())
}
