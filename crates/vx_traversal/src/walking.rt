//! The walk of the visits, over the steps of a visitor or of a closure, and the one that goes down
//! alone.
ghost use Rattle.std.specs.Prelude.{◌≡◌, ◌<◌, ◌≤◌, Ok, Result, length, ⊤};
ghost use Rattle.vx_traversal.specs.declared.order.TraversalOrder.{TraversalOrder};
ghost use Rattle.std.specs.Fn.{CalledAt};
ghost use Rattle.vx_traversal.specs.Visits.{Visits, NoStep};
ghost use Rattle.vx_traversal.specs.FirstVisits.{MayDoNothing, TakesFirst};
ghost use Rattle.vx_traversal.specs.Paths.{AfterPathChild, Descends, IsBelow, TakesBetween, UpPath};

use crate::node_refs::NodeRef;
use crate::nodes::Node;
use crate::order::TraversalOrder;
use crate::paths::{path_node, path_place};
use crate::visitor::NodeVisitor;

// What is done at each node that a reference H shows: a visitor's steps, or a closure's, as M says.
pub(crate) trait Walker<M, H: NodeRef> {
    type Error;

    // Holds of a state in which a step may be taken.
    ghost ready: { Self → Type 0 };

    // The step before the children and the step after them.
    ghost goes_down: { Self → H.Target → Result TraversalOrder Self.Error → Self → Type 0 };

    ghost goes_up: { Self → H.Target → Result TraversalOrder Self.Error → Self → Type 0 };

    fn go_down(&mut self, node: H) -> Result<TraversalOrder, Self::Error>
        requires { ready self.old }
        ensures step { goes_down self.old (H.target node) result self.new }
        ensures again { ready self.new };

    fn go_up(&mut self, node: H) -> Result<TraversalOrder, Self::Error>
        requires { ready self.old }
        ensures step { goes_up self.old (H.target node) result self.new }
        ensures again { ready self.new };
}

// The steps of a visitor.
pub(crate) struct ByVisitor;

impl<'a, V: NodeVisitor<'a>> Walker<ByVisitor, &'a V::NodeTy> for V {
    type Error = V::Error;

    ghost ready = { λ _. ⊤ };

    ghost goes_down = { V.down };

    ghost goes_up = { V.up };

    fn go_down(&mut self, node: &'a V::NodeTy) -> Result<TraversalOrder, V::Error> {
        self.visit_down(node)
    }

    fn go_up(&mut self, node: &'a V::NodeTy) -> Result<TraversalOrder, V::Error> {
        self.visit_up(node)
    }
}

// A closure that is called on the way down.
pub(crate) struct ByClosureDown;

impl<'a, T: Node, E, F: FnMut(&'a T) -> Result<TraversalOrder, E>> Walker<ByClosureDown, &'a T>
    for F {
    type Error = E;

    ghost ready = { λ f. F.IsAlwaysCallable f };

    ghost goes_down = { CalledAt F.FnMut };

    ghost goes_up = { NoStep };

    fn go_down(&mut self, node: &'a T) -> Result<TraversalOrder, E> {
        self(node)
    }

    fn go_up(&mut self, _node: &'a T) -> Result<TraversalOrder, E> {
        Ok(TraversalOrder::Continue)
    }
}

// A closure that is called on the way up.
pub(crate) struct ByClosureUp;

impl<'a, T: Node, E, F: FnMut(&'a T) -> Result<TraversalOrder, E>> Walker<ByClosureUp, &'a T>
    for F {
    type Error = E;

    ghost ready = { λ f. F.IsAlwaysCallable f };

    ghost goes_down = { NoStep };

    ghost goes_up = { CalledAt F.FnMut };

    fn go_down(&mut self, _node: &'a T) -> Result<TraversalOrder, E> {
        Ok(TraversalOrder::Continue)
    }

    fn go_up(&mut self, node: &'a T) -> Result<TraversalOrder, E> {
        self(node)
    }
}

// How a visit goes on after a node's down and the children before the next node of the path.
#[derive(Clone, Copy)]
pub(crate) enum Descent {
    // Not below the node, whose order this is.
    Ends(TraversalOrder),
    // With the child at this place.
    Goes(usize),
}

// The visit of a node. It goes along the node's path by a loop, and back up by halves, since there
// is no memory for a list of the nodes on it; the other children are visited by a call. A path that
// is longer than a number of links can tell goes on by a call.
#[cycle(walk)]
pub(crate) fn walk_node<M, H: NodeRef, W: Walker<M, H>>(
    node: H,
    walker: &mut W,
) -> Result<TraversalOrder, W::Error>
    requires { W.ready walker.old }
    ensures visits { Visits H.Target.children W.goes_down W.goes_up H.Target.height walker.old (H.target node) result walker.new }
    ensures again { W.ready walker.new }
{
    let mut low = node;
    let mut links = 0;
    while links < usize::MAX {
        match walk_first(low, walker)? {
            Descent::Ends(order) => return walk_up(node, links, order, walker),
            Descent::Goes(place) => low = low.child(place),
        }
        links += 1;
    }
    let order = walk_node(low, walker)?;
    walk_up(node, links, order, walker)
}

// What comes before the next node of the path: the node's down, and the children before that one.
#[cycle(walk)]
fn walk_first<M, H: NodeRef, W: Walker<M, H>>(node: H, walker: &mut W) -> Result<Descent, W::Error>
    requires { W.ready walker.old }
    ensures visits { Descends H.Target.children W.goes_down W.goes_up H.Target.height walker.old (H.target node) result walker.new }
    ensures again { W.ready walker.new }
{
    match walker.go_down(node)? {
        TraversalOrder::Stop => return Ok(Descent::Ends(TraversalOrder::Stop)),
        TraversalOrder::Skip => return Ok(Descent::Ends(walker.go_up(node)?)),
        TraversalOrder::Continue => {}
    }
    if node.count() == 0 {
        return Ok(Descent::Ends(walker.go_up(node)?));
    }
    let place = path_place(node);
    match walk_between(node, 0, place, TraversalOrder::Continue, walker)? {
        TraversalOrder::Stop => Ok(Descent::Ends(TraversalOrder::Stop)),
        _ => Ok(Descent::Goes(place)),
    }
}

// The children from one place up to another in turn. The order is the last one's, or `last` where
// there is none.
#[cycle(walk)]
fn walk_between<M, H: NodeRef, W: Walker<M, H>>(
    node: H,
    from: usize,
    to: usize,
    last: TraversalOrder,
    walker: &mut W,
) -> Result<TraversalOrder, W::Error>
    requires ready { W.ready walker.old }
    requires goes_on { last ≡ TraversalOrder.Stop → ⊥ }
    requires within { from ≤ to × to ≤ length (H.Target.children (H.target node)) }
    ensures visits { TakesBetween (Visits H.Target.children W.goes_down W.goes_up H.Target.height) (H.Target.children (H.target node)) from to last
        walker.old result walker.new }
    ensures again { W.ready walker.new }
{
    let mut order = last;
    for i in from..to {
        match walk_node(node.child(i), walker)? {
            TraversalOrder::Stop => return Ok(TraversalOrder::Stop),
            other => order = other,
        }
    }
    Ok(order)
}

// What is left of a node once its child on the path has this order: the children behind that one,
// and the node's up.
#[cycle(walk)]
fn walk_last<M, H: NodeRef, W: Walker<M, H>>(
    node: H,
    order: TraversalOrder,
    walker: &mut W,
) -> Result<TraversalOrder, W::Error>
    requires ready { W.ready walker.old }
    requires goes_on { order ≡ TraversalOrder.Stop → ⊥ }
    requires has_child { 0 < length (H.Target.children (H.target node)) }
    ensures visits { AfterPathChild H.Target.children W.goes_down W.goes_up H.Target.height (H.target node) (Ok order) walker.old result walker.new }
    ensures again { W.ready walker.new }
{
    let count = node.count();
    let place = path_place(node);
    match walk_between(node, place + 1, count, order, walker)? {
        TraversalOrder::Continue => walker.go_up(node),
        other => Ok(other),
    }
}

// What is left of so many nodes of the path from the top on, once the node below them has this
// order: the lower half of them, and then the upper half.
#[cycle(walk)]
fn walk_up<M, H: NodeRef, W: Walker<M, H>>(
    top: H,
    links: usize,
    order: TraversalOrder,
    walker: &mut W,
) -> Result<TraversalOrder, W::Error>
    requires ready { W.ready walker.old }
    requires path { (low : H.Target) × IsBelow H.Target.children links (H.target top) low }
    ensures visits { UpPath H.Target.children W.goes_down W.goes_up H.Target.height links (H.target top) (Ok order) walker.old result walker.new }
    ensures again { W.ready walker.new }
{
    if links == 0 {
        return Ok(order);
    }
    if let TraversalOrder::Stop = order {
        return Ok(TraversalOrder::Stop);
    }
    if links == 1 {
        return walk_last(top, order, walker);
    }
    let half = links / 2;
    let middle = path_node(top, half);
    let lower = walk_up(middle, links - half, order, walker)?;
    walk_up(top, half, lower, walker)
}

// The visit by a walker that may leave its step after the children out. It goes on with a node's
// last child in the same loop, so that a chain of last children takes no stack.
#[cycle(down)]
pub(crate) fn walk_down<M, H: NodeRef, W: Walker<M, H>>(
    node: H,
    walker: &mut W,
) -> Result<TraversalOrder, W::Error>
    requires ready { W.ready walker.old }
    requires no_up { MayDoNothing W.goes_up }
    ensures visits { Visits H.Target.children W.goes_down W.goes_up H.Target.height walker.old (H.target node) result walker.new }
    ensures again { W.ready walker.new }
{
    let mut low = node;
    loop {
        match walker.go_down(low)? {
            TraversalOrder::Stop => return Ok(TraversalOrder::Stop),
            TraversalOrder::Skip => return Ok(TraversalOrder::Continue),
            TraversalOrder::Continue => {}
        }
        let count = low.count();
        if count == 0 {
            return Ok(TraversalOrder::Continue);
        }
        if let TraversalOrder::Stop = walk_down_first(low, count - 1, walker)? {
            return Ok(TraversalOrder::Stop);
        }
        low = low.child(count - 1);
    }
}

// The first children of a node, as many as told.
#[cycle(down)]
fn walk_down_first<M, H: NodeRef, W: Walker<M, H>>(
    node: H,
    count: usize,
    walker: &mut W,
) -> Result<TraversalOrder, W::Error>
    requires ready { W.ready walker.old }
    requires no_up { MayDoNothing W.goes_up }
    requires within { count ≤ length (H.Target.children (H.target node)) }
    ensures visits { TakesFirst (Visits H.Target.children W.goes_down W.goes_up H.Target.height)
        (H.Target.children (H.target node)) count walker.old result walker.new }
    ensures again { W.ready walker.new }
{
    let mut last = TraversalOrder::Continue;
    for i in 0..count {
        match walk_down(node.child(i), walker)? {
            TraversalOrder::Stop => return Ok(TraversalOrder::Stop),
            order => last = order,
        }
    }
    Ok(last)
}
