//! Folds that say what they do to a whole tree, and the one loop of them.
ghost use Rattle.std.specs.Prelude.{◌≡◌, ◌<◌, ◌≤◌, List, [], IfOk, OnOk, length};
ghost use Rattle.vx_traversal.specs.FoldTurns.{StepsDown};
ghost use Rattle.vx_traversal.specs.FoldPending.{HasOneResultMore, NextPending, Pending};

use crate::nodes::Node;
use std::alloc::Global;
use std::mem;
use vx_dtype::{Mem, NoMemory};

/// What is done at each node of a fold, and what the fold does to a whole tree where it does so to
/// the children. The steps refuse only where memory runs out.
pub trait FoldSteps {
    type NodeTy: Node;

    type Result: Drop;

    /// Holds of a state in which this tree may be folded.
    ghost ready: { Self → Self.NodeTy → Type 0 };

    /// What the fold does to this tree: the state before, the tree, its result and the state after.
    ghost folds: { Self → Self.NodeTy → Self.Result → Self → Type 0 };

    /// What it has done once the children are folded: the state before the node, the node, the
    /// results of the children and the state after them.
    ghost gathers: { Self → Self.NodeTy → List Self.Result → Self → Type 0 };

    /// Called on a node before its children: its result, where they are left out.
    fn down(&mut self, alloc: Global, node: &Self::NodeTy) -> Mem<Option<Self::Result>>
        requires { ready self.old node.now }
        ensures { IfOk result (λ given. StepsDown ready folds Self.NodeTy.children gathers self.old node.now given self.new) };

    /// Called on a node after its children, with their results in order: the result of the node.
    fn up(
        &mut self,
        alloc: Global,
        node: &Self::NodeTy,
        results: &[Self::Result],
    ) -> Mem<Self::Result>
        requires { (start : Self) × gathers start node.now results.now self.old }
        ensures { (start : Self) → gathers start node.now results.now self.old → IfOk result (λ given. folds start node.now given self.new) };
}

// A node whose children are folded in turn, how many they are, and their results so far.
#[derive(Drop)]
pub(crate) struct TurnFrame<'a, N, R> {
    node: &'a N,
    count: usize,
    results: Vec<R>,
}

// Folds a tree. The nodes whose children are folded stand in a vector, so that a tree takes the stack
// of one node however deep it is. The vector of a node's results is used again for a later node's, so
// that at most as many are made as the tree is deep. The turns are counted, since a measure of them would say nothing
// more: no machine takes all of them.
pub(crate) fn fold_tree<F: FoldSteps>(
    tree: &F::NodeTy,
    alloc: Global,
    steps: &mut F,
) -> Mem<F::Result>
    requires { F.ready steps.old tree.now }
    ensures { IfOk result (λ given. F.folds steps.old tree.now given steps.new) }
{
    if let Some(given) = steps.down(alloc, tree)? {
        return Ok(given);
    }
    let mut outer = Vec::new(alloc);
    let mut spare = Vec::new(alloc);
    let mut frame = TurnFrame {
        node: tree,
        count: tree.children_count(),
        results: Vec::new(alloc),
    };
    for _ in 0..u64::MAX {
        if let Some(given) = turn(&mut frame, alloc, &mut outer, &mut spare, steps)? {
            return Ok(given);
        }
    }
    Err(NoMemory)
}

// One step of a fold: down on the frame's next child, or up on its node. Gives the result of the whole
// tree where the fold has come to its end.
fn turn<'a, F: FoldSteps>(
    frame: &mut TurnFrame<'a, F::NodeTy, F::Result>,
    alloc: Global,
    outer: &mut Vec<TurnFrame<'a, F::NodeTy, F::Result>>,
    spare: &mut Vec<Vec<F::Result>>,
    steps: &mut F,
) -> Mem<Option<F::Result>>
    requires { (start : F) × (tree : F.NodeTy) × Pending F.NodeTy.children F.ready F.folds F.gathers (F.folds start tree) outer.old.items frame.old steps.old }
    ensures { (start : F) (tree : F.NodeTy) → Pending F.NodeTy.children F.ready F.folds F.gathers (F.folds start tree) outer.old.items frame.old steps.old →
        IfOk result (λ end. NextPending F.NodeTy.children F.ready F.folds F.gathers (F.folds start tree) outer.new.items frame.new end steps.new) }
{
    if frame.results.len() < frame.count {
        turn_down(frame, alloc, outer, spare, steps)?;
        return Ok(None);
    }
    turn_up(frame, alloc, outer, spare, steps)
}

// Down on the frame's next child, and up on it at once where it has no children.
fn turn_down<'a, F: FoldSteps>(
    frame: &mut TurnFrame<'a, F::NodeTy, F::Result>,
    alloc: Global,
    outer: &mut Vec<TurnFrame<'a, F::NodeTy, F::Result>>,
    spare: &mut Vec<Vec<F::Result>>,
    steps: &mut F,
) -> Mem<()>
    requires within { length frame.old.results.items < length (F.NodeTy.children frame.old.node.now) }
    requires pending { (start : F) × (tree : F.NodeTy) × Pending F.NodeTy.children F.ready F.folds F.gathers (F.folds start tree) outer.old.items frame.old steps.old }
    ensures { (start : F) (tree : F.NodeTy) → Pending F.NodeTy.children F.ready F.folds F.gathers (F.folds start tree) outer.old.items frame.old steps.old →
        OnOk result (Pending F.NodeTy.children F.ready F.folds F.gathers (F.folds start tree) outer.new.items frame.new steps.new) }
{
    let child = frame.node.node_child(frame.results.len());
    if let Some(given) = steps.down(alloc, child)? {
        add_result(frame, given)?;
        return Ok(());
    }
    let count = child.children_count();
    if count == 0 {
        let given = steps.up(alloc, child, &[])?;
        add_result(frame, given)?;
        return Ok(());
    }
    let below = TurnFrame {
        node: child,
        count,
        results: emptied(spare, alloc),
    };
    let above = mem::replace(frame, below);
    outer.push(above)?;
    Ok(())
}

// Up on a frame's node whose children all have results, and back to the frame above, if there is one.
fn turn_up<'a, F: FoldSteps>(
    frame: &mut TurnFrame<'a, F::NodeTy, F::Result>,
    alloc: Global,
    outer: &mut Vec<TurnFrame<'a, F::NodeTy, F::Result>>,
    spare: &mut Vec<Vec<F::Result>>,
    steps: &mut F,
) -> Mem<Option<F::Result>>
    requires past { length (F.NodeTy.children frame.old.node.now) ≤ length frame.old.results.items }
    requires pending { (start : F) × (tree : F.NodeTy) × Pending F.NodeTy.children F.ready F.folds F.gathers (F.folds start tree) outer.old.items frame.old steps.old }
    ensures { (start : F) (tree : F.NodeTy) → Pending F.NodeTy.children F.ready F.folds F.gathers (F.folds start tree) outer.old.items frame.old steps.old →
        IfOk result (λ end. NextPending F.NodeTy.children F.ready F.folds F.gathers (F.folds start tree) outer.new.items frame.new end steps.new) }
{
    let given = steps.up(alloc, frame.node, frame.results.as_slice())?;
    match outer.pop() {
        None => Ok(Some(given)),
        Some(above) => {
            let done = mem::replace(frame, above);
            keep_spare(spare, done)?;
            add_result(frame, given)?;
            Ok(None)
        }
    }
}

// One result more in the frame.
fn add_result<N, R: Drop>(frame: &mut TurnFrame<'_, N, R>, given: R) -> Mem<()>
    ensures { OnOk result (HasOneResultMore frame.old given frame.new) }
{
    frame.results.push(given)?;
    Ok(())
}

// A vector without any results: a spare one, where there is one.
fn emptied<R: Drop>(spare: &mut Vec<Vec<R>>, alloc: Global) -> Vec<R>
    ensures { result.items ≡ [] }
{
    match spare.pop() {
        None => Vec::new(alloc),
        Some(mut results) => {
            results.clear();
            results
        }
    }
}

// Keeps the vector of a frame that is done with, and drops the results in it.
fn keep_spare<N, R: Drop>(spare: &mut Vec<Vec<R>>, frame: TurnFrame<'_, N, R>) -> Mem<()> {
    let TurnFrame {
        node: _node,
        count: _count,
        mut results,
    } = frame;
    results.clear();
    spare.push(results)?;
    Ok(())
}
