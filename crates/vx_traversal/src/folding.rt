//! The one loop of all folds, with a context or without.
ghost use Rattle.std.specs.Prelude.{◌≡◌, ◌<◌, ◌≤◌, List, [], Ok, Result, IfOk, length};
ghost use Rattle.vx_traversal.specs.declared.errors.WalkError.{WalkError};
ghost use Rattle.vx_traversal.specs.declared.fold.FoldDownContext.{FoldDownContext};
ghost use Rattle.vx_traversal.specs.declared.fold.FoldUp.{FoldUp};
ghost use Rattle.vx_traversal.specs.Folds.{AfterDown, DownAlone, FoldsInTurn, FoldsUnder, UpAlone};
ghost use Rattle.vx_traversal.specs.FoldFrames.{HasOneMore, StepsOn, context_below};
ghost use Rattle.vx_traversal.specs.Rewrites.{UnlessNoMemory};

use crate::errors::{Walk, WalkError};
use crate::fold::{FoldDown, FoldDownContext, FoldUp, NodeFolder, NodeFolderContext};
use crate::nodes::{Node, clone_child};
use std::alloc::Global;
use vx_dtype::Mem;

// What is done at each node of a fold: the steps of a folder with a context or without, as M says.
pub(crate) trait Folding<M> {
    type NodeTy: Node;

    type Result: Drop;

    type Context: Drop;

    type Error;

    ghost goes_down: { Self → Self.Context → Self.NodeTy → Result (FoldDownContext Self.Context Self.Result) (WalkError Self.Error) → Self → Type 0 };

    ghost goes_up: { Self → Self.NodeTy → Self.Context → List Self.Result → Result (FoldUp Self.Result) (WalkError Self.Error) → Self → Type 0 };

    fn go_down(
        &mut self,
        ctx: &Self::Context,
        node: &Self::NodeTy,
    ) -> Walk<FoldDownContext<Self::Context, Self::Result>, Self::Error>
        ensures { goes_down self.old ctx.now node.now result self.new };

    fn go_up(
        &mut self,
        node: Self::NodeTy,
        ctx: &Self::Context,
        children: Vec<Self::Result>,
    ) -> Walk<FoldUp<Self::Result>, Self::Error>
        ensures { goes_up self.old node ctx.now children.items result self.new };
}

// The steps of a folder with a context.
pub(crate) struct InContext;

impl<F: NodeFolderContext> Folding<InContext> for F {
    type NodeTy = F::NodeTy;

    type Result = F::Result;

    type Context = F::Context;

    type Error = F::Error;

    ghost goes_down = { F.down };

    ghost goes_up = { F.up };

    fn go_down(
        &mut self,
        ctx: &F::Context,
        node: &F::NodeTy,
    ) -> Walk<FoldDownContext<F::Context, F::Result>, F::Error> {
        self.visit_down(ctx, node)
    }

    fn go_up(
        &mut self,
        node: F::NodeTy,
        ctx: &F::Context,
        children: Vec<F::Result>,
    ) -> Walk<FoldUp<F::Result>, F::Error>
        ensures { F.up self.old node ctx.now children.items result self.new }
    {
        self.visit_up(node, ctx, children)
    }
}

// The steps of a folder without a context.
pub(crate) struct Alone;

impl<F: NodeFolder> Folding<Alone> for F {
    type NodeTy = F::NodeTy;

    type Result = F::Result;

    type Context = ();

    type Error = F::Error;

    ghost goes_down = { DownAlone F.down };

    ghost goes_up = { UpAlone F.up };

    fn go_down(
        &mut self,
        _ctx: &(),
        node: &F::NodeTy,
    ) -> Walk<FoldDownContext<(), F::Result>, F::Error> {
        match self.visit_down(node)? {
            FoldDown::Continue => Ok(FoldDownContext::Continue(())),
            FoldDown::Stop(given) => Ok(FoldDownContext::Stop(given)),
            FoldDown::Skip(given) => Ok(FoldDownContext::Skip(given)),
        }
    }

    fn go_up(
        &mut self,
        node: F::NodeTy,
        _ctx: &(),
        children: Vec<F::Result>,
    ) -> Walk<FoldUp<F::Result>, F::Error>
        ensures { F.up self.old node children.items result self.new }
    {
        self.visit_up(node, children)
    }
}

pub(crate) fn fold_node<M, F: Folding<M>>(
    node: F::NodeTy,
    alloc: Global,
    ctx: &F::Context,
    folder: &mut F,
) -> Walk<FoldUp<F::Result>, F::Error>
    ensures { UnlessNoMemory result (FoldsUnder F.NodeTy.children F.goes_down F.goes_up F.NodeTy.height folder.old ctx.now node result folder.new) }
{
    let answer = folder.go_down(ctx, &node)?;
    fold_after_down(node, alloc, ctx, answer, folder)
}

// What follows the answer of a node's down under this context.
fn fold_after_down<M, F: Folding<M>>(
    node: F::NodeTy,
    alloc: Global,
    ctx: &F::Context,
    answer: FoldDownContext<F::Context, F::Result>,
    folder: &mut F,
) -> Walk<FoldUp<F::Result>, F::Error>
    ensures { UnlessNoMemory result (AfterDown F.NodeTy.children F.goes_down F.goes_up
        (FoldsUnder F.NodeTy.children F.goes_down F.goes_up F.NodeTy.height) ctx.now node (Ok answer) folder.old result folder.new) }
{
    match answer {
        FoldDownContext::Continue(inner) => fold_children(node, alloc, ctx, inner, folder),
        FoldDownContext::Skip(given) => Ok(FoldUp::Continue(given)),
        FoldDownContext::Stop(given) => Ok(FoldUp::Stop(given)),
    }
}

// A node whose children are folded in turn.
#[derive(Drop)]
pub(crate) struct FoldFrame<N, C, R> {
    node: N,
    // The context of the children.
    inner: C,
    // The results of the children so far.
    results: Vec<R>,
}

// How a fold goes on after a step.
#[derive(Drop)]
pub(crate) enum NextFold<N, C, R> {
    // In this frame.
    Goes(FoldFrame<N, C, R>),
    // Not at all: the whole fold has this answer.
    Ends(FoldUp<R>),
}

// Folds the children of a node and then the node. The nodes whose children are folded stand in a
// vector, so that a tree takes the stack of one node however deep it is. The turns are counted,
// since a measure of them would say nothing more: no machine takes all of them.
fn fold_children<M, F: Folding<M>>(
    node: F::NodeTy,
    alloc: Global,
    ctx: &F::Context,
    inner: F::Context,
    folder: &mut F,
) -> Walk<FoldUp<F::Result>, F::Error>
    ensures { UnlessNoMemory result (FoldsInTurn (FoldsUnder F.NodeTy.children F.goes_down F.goes_up F.NodeTy.height) inner
        (λ state results. F.goes_up state node ctx.now results) [] folder.old (F.NodeTy.children node) result folder.new) }
{
    let mut outer = Vec::new(alloc);
    let mut frame = FoldFrame {
        node,
        inner,
        results: Vec::new(alloc),
    };
    for _ in 0..u64::MAX {
        match fold_step(frame, alloc, ctx, &mut outer, folder)? {
            NextFold::Ends(given) => return Ok(given),
            NextFold::Goes(next) => frame = next,
        }
    }
    Err(WalkError::NoMemory)
}

// One step of a fold: down on the frame's next child, or up on its node.
fn fold_step<M, F: Folding<M>>(
    frame: FoldFrame<F::NodeTy, F::Context, F::Result>,
    alloc: Global,
    ctx: &F::Context,
    outer: &mut Vec<FoldFrame<F::NodeTy, F::Context, F::Result>>,
    folder: &mut F,
) -> Walk<NextFold<F::NodeTy, F::Context, F::Result>, F::Error>
    ensures { StepsOn F.NodeTy.children F.goes_down F.goes_up F.NodeTy.height ctx.now outer.old.items frame folder.old result outer.new.items folder.new }
{
    if frame.results.len() < frame.node.children_count() {
        return fold_down(frame, alloc, ctx, outer, folder);
    }
    fold_up(frame, ctx, outer, folder)
}

// Down on the frame's next child.
fn fold_down<M, F: Folding<M>>(
    frame: FoldFrame<F::NodeTy, F::Context, F::Result>,
    alloc: Global,
    ctx: &F::Context,
    outer: &mut Vec<FoldFrame<F::NodeTy, F::Context, F::Result>>,
    folder: &mut F,
) -> Walk<NextFold<F::NodeTy, F::Context, F::Result>, F::Error>
    requires { length frame.results.items < length (F.NodeTy.children frame.node) }
    ensures { StepsOn F.NodeTy.children F.goes_down F.goes_up F.NodeTy.height ctx.now outer.old.items frame folder.old result outer.new.items folder.new }
{
    let child = clone_child(&frame.node, frame.results.len())?;
    match folder.go_down(&frame.inner, &child)? {
        FoldDownContext::Stop(given) => Ok(NextFold::Ends(FoldUp::Stop(given))),
        FoldDownContext::Skip(given) => Ok(NextFold::Goes(with_result(frame, given)?)),
        FoldDownContext::Continue(inner) => {
            outer.push(frame)?;
            Ok(NextFold::Goes(FoldFrame {
                node: child,
                inner,
                results: Vec::new(alloc),
            }))
        }
    }
}

// Up on a frame's node whose children all have results.
fn fold_up<M, F: Folding<M>>(
    frame: FoldFrame<F::NodeTy, F::Context, F::Result>,
    ctx: &F::Context,
    outer: &mut Vec<FoldFrame<F::NodeTy, F::Context, F::Result>>,
    folder: &mut F,
) -> Walk<NextFold<F::NodeTy, F::Context, F::Result>, F::Error>
    requires { length (F.NodeTy.children frame.node) ≤ length frame.results.items }
    ensures { StepsOn F.NodeTy.children F.goes_down F.goes_up F.NodeTy.height ctx.now outer.old.items frame folder.old result outer.new.items folder.new }
{
    match frame_up(frame, ctx, outer, folder)? {
        FoldUp::Stop(given) => Ok(NextFold::Ends(FoldUp::Stop(given))),
        FoldUp::Continue(given) => match outer.pop() {
            None => Ok(NextFold::Ends(FoldUp::Continue(given))),
            Some(above) => Ok(NextFold::Goes(with_result(above, given)?)),
        },
    }
}

// Up on a frame's node, under the context that its down got: that of the children of the frame
// above it, or the whole fold's.
fn frame_up<M, F: Folding<M>>(
    frame: FoldFrame<F::NodeTy, F::Context, F::Result>,
    ctx: &F::Context,
    outer: &[FoldFrame<F::NodeTy, F::Context, F::Result>],
    folder: &mut F,
) -> Walk<FoldUp<F::Result>, F::Error>
    ensures { F.goes_up folder.old frame.node (context_below ctx.now outer.now) frame.results.items result folder.new }
{
    if outer.is_empty() {
        return folder.go_up(frame.node, ctx, frame.results);
    }
    folder.go_up(frame.node, &outer[outer.len() - 1].inner, frame.results)
}

// The frame with one more result.
fn with_result<N: Clone, C: Drop, R: Drop>(
    frame: FoldFrame<N, C, R>,
    given: R,
) -> Mem<FoldFrame<N, C, R>>
    ensures { IfOk result (HasOneMore frame given) }
{
    let FoldFrame {
        node,
        inner,
        mut results,
    } = frame;
    results.push(given)?;
    Ok(FoldFrame {
        node,
        inner,
        results,
    })
}
