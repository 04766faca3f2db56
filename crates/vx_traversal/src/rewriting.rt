//! The one loop of all rewrites, over the steps of a rewriter or of a closure, and the loop that maps
//! a node's children alone.
ghost use Rattle.std.specs.Prelude.{◌≡◌, ◌<◌, Ok, Result, IfOk, ⊤, length};
ghost use Rattle.vx_traversal.specs.declared.errors.WalkError.{WalkError};
ghost use Rattle.vx_traversal.specs.declared.transform.Transformed.{Transformed};
ghost use Rattle.vx_traversal.specs.declared.order.TraversalOrder.{TraversalOrder};
ghost use Rattle.vx_traversal.specs.Rewrites.{CalledWith, FromOrder, GoesUp, IsNoHigher, KeepsHeight, KeepsValue, MapsChildren, Rewrites};
ghost use Rattle.vx_traversal.specs.Rewrites.{UnlessNoMemory, none_yet};
ghost use Rattle.vx_traversal.specs.RewriteFrames.{Finishes, FramesFit, HasOneMore, NextFits, StepsOn, so_far};

use crate::errors::{Walk, WalkError};
use crate::nodes::{Node, clone_child, rebuild};
use crate::order::TraversalOrder;
use crate::rewriter::NodeRewriter;
use crate::transform::Transformed;
use std::alloc::Global;
use vx_dtype::Mem;

// What is done at each node of a rewrite: a rewriter's steps, or a closure's, as M says.
pub(crate) trait Rewriting<M, N: Node> {
    type Error;

    // Holds of a state in which a step may be taken.
    ghost ready: { Self → Type 0 };

    // The step before the children and the step after them.
    ghost goes_down: { Self → N → Result (Transformed N) (WalkError Self.Error) → Self → Type 0 };

    ghost goes_up: { Self → N → Result (Transformed N) (WalkError Self.Error) → Self → Type 0 };

    fn go_down(&mut self, node: N) -> Walk<Transformed<N>, Self::Error>
        requires { ready self.old }
        ensures step { goes_down self.old node result self.new }
        ensures again { ready self.new }
        ensures no_higher { IsNoHigher N.height node result };

    fn go_up(&mut self, node: N) -> Walk<Transformed<N>, Self::Error>
        requires { ready self.old }
        ensures step { goes_up self.old node result self.new }
        ensures again { ready self.new };
}

// The steps of a rewriter.
pub(crate) struct ByRewriter;

impl<R: NodeRewriter> Rewriting<ByRewriter, R::NodeTy> for R {
    type Error = R::Error;

    ghost ready = { λ _. ⊤ };

    ghost goes_down = { R.down };

    ghost goes_up = { R.up };

    fn go_down(&mut self, node: R::NodeTy) -> Walk<Transformed<R::NodeTy>, R::Error> {
        self.visit_down(node)
    }

    fn go_up(&mut self, node: R::NodeTy) -> Walk<Transformed<R::NodeTy>, R::Error> {
        self.visit_up(node)
    }
}

// A closure that is called on the way down.
pub(crate) struct ByClosureDown;

impl<N: Node, E, F: FnMut(N) -> Walk<Transformed<N>, E>> Rewriting<ByClosureDown, N> for F {
    type Error = E;

    ghost ready = { λ f. F.IsAlwaysCallable f × KeepsHeight N.height (CalledWith F.FnMut) };

    ghost goes_down = { CalledWith F.FnMut };

    ghost goes_up = { KeepsValue };

    fn go_down(&mut self, node: N) -> Walk<Transformed<N>, E> {
        self(node)
    }

    fn go_up(&mut self, node: N) -> Walk<Transformed<N>, E> {
        Ok(Transformed::no(node))
    }
}

// A closure that is called on the way up.
pub(crate) struct ByClosureUp;

impl<N: Node, E, F: FnMut(N) -> Walk<Transformed<N>, E>> Rewriting<ByClosureUp, N> for F {
    type Error = E;

    ghost ready = { λ f. F.IsAlwaysCallable f };

    ghost goes_down = { KeepsValue };

    ghost goes_up = { CalledWith F.FnMut };

    fn go_down(&mut self, node: N) -> Walk<Transformed<N>, E> {
        Ok(Transformed::no(node))
    }

    fn go_up(&mut self, node: N) -> Walk<Transformed<N>, E> {
        self(node)
    }
}

pub(crate) fn rewrite_node<M, N: Node, R: Rewriting<M, N>>(
    node: N,
    alloc: Global,
    rewriter: &mut R,
) -> Walk<Transformed<N>, R::Error>
    requires { R.ready rewriter.old }
    ensures rewrites { UnlessNoMemory result (Rewrites N.children N.is_with R.goes_down R.goes_up N.height rewriter.old node result rewriter.new) }
    ensures again { R.ready rewriter.new }
{
    let given = rewriter.go_down(node)?;
    match given.order {
        TraversalOrder::Stop => Ok(given),
        TraversalOrder::Skip => rewrite_up(given.value, given.changed, rewriter),
        TraversalOrder::Continue => rewrite_children(given, alloc, rewriter),
    }
}

// A node whose children are rewritten in turn.
#[derive(Drop)]
pub(crate) struct RewriteFrame<N> {
    // The value that down gave, and whether it was changed.
    node: N,
    changed_before: bool,
    // The children's values so far, the last one's order, and whether one was changed.
    values: Vec<N>,
    order: TraversalOrder,
    changed: bool,
}

// How a rewrite goes on after a step.
#[derive(Drop)]
pub(crate) enum NextRewrite<N> {
    // In this frame.
    Goes(RewriteFrame<N>),
    // Not at all: the whole rewrite has this answer.
    Ends(Transformed<N>),
}

// Rewrites the children of the value that a node's down gave with Continue, and then the node. The
// nodes whose children are rewritten stand in a vector, so that a tree takes the stack of one node
// however deep it is. The turns are counted, since no number that the nodes give bounds them: no
// machine takes all of them.
fn rewrite_children<M, N: Node, R: Rewriting<M, N>>(
    given: Transformed<N>,
    alloc: Global,
    rewriter: &mut R,
) -> Walk<Transformed<N>, R::Error>
    requires { R.ready rewriter.old }
    ensures rewrites { UnlessNoMemory result (FromOrder N.children N.is_with R.goes_down R.goes_up
        (Rewrites N.children N.is_with R.goes_down R.goes_up N.height) TraversalOrder.Continue given rewriter.old result rewriter.new) }
    ensures again { R.ready rewriter.new }
{
    let mut outer = Vec::new(alloc);
    let mut frame = frame_of(given, alloc);
    for _ in 0..u64::MAX {
        match rewrite_step(frame, alloc, &mut outer, rewriter)? {
            NextRewrite::Ends(answer) => return Ok(answer),
            NextRewrite::Goes(next) => frame = next,
        }
    }
    Err(WalkError::NoMemory)
}

// The frame of the value that a node's down gave, before its children.
fn frame_of<N: Node>(given: Transformed<N>, alloc: Global) -> RewriteFrame<N>
    ensures node { result.node ≡ given.value }
    ensures before { result.changed_before ≡ given.changed }
    ensures values { so_far result ≡ none_yet }
{
    RewriteFrame {
        node: given.value,
        changed_before: given.changed,
        values: Vec::new(alloc),
        order: TraversalOrder::Continue,
        changed: false,
    }
}

// One step of a rewrite: the frame's next child, or its node after all of them.
fn rewrite_step<M, N: Node, R: Rewriting<M, N>>(
    frame: RewriteFrame<N>,
    alloc: Global,
    outer: &mut Vec<RewriteFrame<N>>,
    rewriter: &mut R,
) -> Walk<NextRewrite<N>, R::Error>
    requires ready { R.ready rewriter.old }
    requires fits { FramesFit N.children outer.old.items frame }
    ensures steps { StepsOn N.children N.is_with R.goes_down R.goes_up N.height outer.old.items frame rewriter.old result outer.new.items rewriter.new }
    ensures fit { IfOk result (NextFits N.children outer.new.items) }
    ensures again { R.ready rewriter.new }
{
    if frame.values.len() < frame.node.children_count() {
        return rewrite_child(frame, alloc, outer, rewriter);
    }
    finish_node(frame, alloc, outer, rewriter)
}

// The frame's next child: it stays after a Stop, and else its down is taken. A child without children
// needs no frame of its own.
fn rewrite_child<M, N: Node, R: Rewriting<M, N>>(
    frame: RewriteFrame<N>,
    alloc: Global,
    outer: &mut Vec<RewriteFrame<N>>,
    rewriter: &mut R,
) -> Walk<NextRewrite<N>, R::Error>
    requires ready { R.ready rewriter.old }
    requires fits { FramesFit N.children outer.old.items frame }
    requires within { length frame.values.items < length (N.children frame.node) }
    ensures steps { StepsOn N.children N.is_with R.goes_down R.goes_up N.height outer.old.items frame rewriter.old result outer.new.items rewriter.new }
    ensures fit { IfOk result (NextFits N.children outer.new.items) }
    ensures again { R.ready rewriter.new }
{
    let child = clone_child(&frame.node, frame.values.len())?;
    if let TraversalOrder::Stop = frame.order {
        let kept = Transformed {
            value: child,
            order: frame.order,
            changed: false,
        };
        return Ok(NextRewrite::Goes(with_value(frame, kept)?));
    }
    let given = rewriter.go_down(child)?;
    match given.order {
        TraversalOrder::Stop => Ok(NextRewrite::Goes(with_value(frame, given)?)),
        TraversalOrder::Skip => {
            let skipped = rewrite_up(given.value, given.changed, rewriter)?;
            Ok(NextRewrite::Goes(with_value(frame, skipped)?))
        }
        TraversalOrder::Continue => {
            if given.value.children_count() == 0 {
                let leaf = rewrite_up(given.value, given.changed, rewriter)?;
                return Ok(NextRewrite::Goes(with_value(frame, leaf)?));
            }
            outer.push(frame)?;
            Ok(NextRewrite::Goes(frame_of(given, alloc)))
        }
    }
}

// The frame's node after all its children.
fn finish_node<M, N: Node, R: Rewriting<M, N>>(
    frame: RewriteFrame<N>,
    alloc: Global,
    outer: &mut Vec<RewriteFrame<N>>,
    rewriter: &mut R,
) -> Walk<NextRewrite<N>, R::Error>
    requires ready { R.ready rewriter.old }
    requires fits { FramesFit N.children outer.old.items frame }
    requires past { length frame.values.items ≡ length (N.children frame.node) }
    ensures steps { StepsOn N.children N.is_with R.goes_down R.goes_up N.height outer.old.items frame rewriter.old result outer.new.items rewriter.new }
    ensures fit { IfOk result (NextFits N.children outer.new.items) }
    ensures again { R.ready rewriter.new }
{
    let answer = rewrite_end(frame, alloc, rewriter)?;
    match outer.pop() {
        None => Ok(NextRewrite::Ends(answer)),
        Some(above) => Ok(NextRewrite::Goes(with_value(above, answer)?)),
    }
}

// The rebuilt node of a frame, with its up where the children's order is Continue.
fn rewrite_end<M, N: Node, R: Rewriting<M, N>>(
    frame: RewriteFrame<N>,
    alloc: Global,
    rewriter: &mut R,
) -> Walk<Transformed<N>, R::Error>
    requires ready { R.ready rewriter.old }
    requires past { length frame.values.items ≡ length (N.children frame.node) }
    ensures rewrites { UnlessNoMemory result (Finishes N.children N.is_with R.goes_down R.goes_up frame (Ok (so_far frame)) rewriter.old result rewriter.new) }
    ensures again { R.ready rewriter.new }
{
    let before = frame.changed_before;
    let mapped = rebuild(frame.node, alloc, frame.values, frame.order, frame.changed)?;
    let changed = before | mapped.changed;
    match mapped.order {
        TraversalOrder::Continue => rewrite_up(mapped.value, changed, rewriter),
        order => Ok(Transformed {
            value: mapped.value,
            order,
            changed,
        }),
    }
}

// The frame with one more value.
fn with_value<N: Node>(frame: RewriteFrame<N>, given: Transformed<N>) -> Mem<RewriteFrame<N>>
    ensures { IfOk result (HasOneMore frame given) }
{
    let RewriteFrame {
        node,
        changed_before,
        mut values,
        order: _,
        changed,
    } = frame;
    values.push(given.value)?;
    Ok(RewriteFrame {
        node,
        changed_before,
        values,
        order: given.order,
        changed: changed | given.changed,
    })
}

// The node with the answers of its children's ups, each child alone.
pub(crate) fn map_children_alone<M, N: Node, R: Rewriting<M, N>>(
    node: N,
    alloc: Global,
    rewriter: &mut R,
) -> Walk<Transformed<N>, R::Error>
    requires { R.ready rewriter.old }
    ensures rewrites { UnlessNoMemory result (MapsChildren N.children N.is_with R.goes_up rewriter.old node result rewriter.new) }
    ensures again { R.ready rewriter.new }
{
    let mut values = Vec::new(alloc);
    let mut order = TraversalOrder::Continue;
    let mut changed = false;
    for i in 0..node.children_count() {
        let child = clone_child(&node, i)?;
        if let TraversalOrder::Stop = order {
            values.push(child)?;
            continue;
        }
        let mapped = rewriter.go_up(child)?;
        values.push(mapped.value)?;
        order = mapped.order;
        changed = changed | mapped.changed;
    }
    rebuild(node, alloc, values, order, changed)
}

// Up on the value, changed also where a value before it was.
fn rewrite_up<M, N: Node, R: Rewriting<M, N>>(
    node: N,
    changed: bool,
    rewriter: &mut R,
) -> Walk<Transformed<N>, R::Error>
    requires { R.ready rewriter.old }
    ensures rewrites { GoesUp R.goes_up changed rewriter.old node result rewriter.new }
    ensures again { R.ready rewriter.new }
{
    let given = rewriter.go_up(node)?;
    Ok(Transformed {
        value: given.value,
        order: given.order,
        changed: changed | given.changed,
    })
}
