//! The walks over a tree of numbers.
ghost use Rattle.std.specs.Prelude.{⊤};
ghost use Rattle.vx_base_tests.specs.Numbers.{number_height};
ghost use Rattle.vx_traversal.specs.Rewrites.{IsNoHigher};

use crate::numbers::Numbers;
use crate::samples::{fork, leaf, pair};
use std::alloc::Global;
use std::rc::Rc;
use std::test::Fail;
use vx_dtype::{Mem, NoMemory};
use vx_traversal::{
    FoldDown, FoldDownContext, FoldUp, Node, NodeContainer, NodeExt, NodeFolder, NodeFolderContext,
    NodeRefContainer, NodeRewriter, NodeVisitor, Transformed, TraversalOrder, Walk,
    pre_order_visit_down, pre_order_visit_up,
};

/// `1(2(low), 3)`.
fn branch(alloc: Global, low: u64) -> Mem<Numbers> {
    fork(alloc, 1, pair(alloc, 2, low)?, leaf(alloc, 3)?)
}

/// `1(2(4), 3)`.
fn grove(alloc: Global) -> Mem<Numbers> {
    branch(alloc, 4)
}

/// The order after a number: Stop at the one, Skip at the other, else Continue.
fn order_at(value: u64, stop: u64, skip: u64) -> TraversalOrder {
    if value == stop {
        TraversalOrder::Stop
    } else if value == skip {
        TraversalOrder::Skip
    } else {
        TraversalOrder::Continue
    }
}

/// Writes each number down, and a hundred more on the way up; stops and skips at given numbers.
#[derive(Drop)]
struct Recorder {
    seen: Vec<u64>,
    stops: u64,
    skips: u64,
}

impl<'a> NodeVisitor<'a> for Recorder {
    type NodeTy = Numbers;

    type Error = NoMemory;

    ghost down = { λ _ _ _ _. ⊤ };

    ghost up = { λ _ _ _ _. ⊤ };

    fn visit_down(&mut self, node: &'a Numbers) -> Mem<TraversalOrder> {
        self.seen.push(node.value())?;
        Ok(order_at(node.value(), self.stops, self.skips))
    }

    fn visit_up(&mut self, node: &'a Numbers) -> Mem<TraversalOrder> {
        self.seen.push(node.value().wrapping_add(100))?;
        Ok(TraversalOrder::Continue)
    }
}

/// Whether a visit of `1(2(4), 3)` ends with this order after it saw these numbers.
fn visit_sees(
    alloc: Global,
    stops: u64,
    skips: u64,
    order: TraversalOrder,
    numbers: &[u64],
) -> Mem<bool> {
    let mut recorder = Recorder {
        seen: Vec::new(alloc),
        stops,
        skips,
    };
    let ended = grove(alloc)?.accept(&mut recorder)?;
    Ok(ended == order && recorder.seen.as_slice() == numbers)
}

#[test]
fn visits(rt: HostRuntime) -> Result<(), Fail> {
    let alloc = rt.alloc();
    let (goes_on, stop) = (TraversalOrder::Continue, TraversalOrder::Stop);
    assert!(rt; visit_sees(alloc, 0, 0, goes_on, &[1, 2, 4, 104, 102, 3, 103, 101])?);
    assert!(rt; visit_sees(alloc, 0, 2, goes_on, &[1, 2, 102, 3, 103, 101])?);
    assert!(rt; visit_sees(alloc, 2, 0, stop, &[1, 2])?);
    Ok(())
}

/// Down stops, unchanged, at 2; up counts, and answers the number as it is, changed.
#[derive(Drop)]
struct StopsBelow {
    ups: u64,
}

impl NodeRewriter for StopsBelow {
    type NodeTy = Numbers;

    type Error = NoMemory;

    ghost down = { λ _ _ _ _. ⊤ };

    ghost up = { λ _ _ _ _. ⊤ };

    fn visit_down(&mut self, node: Numbers) -> Walk<Transformed<Numbers>, NoMemory> {
        let order = order_at(node.value(), 2, 0);
        Ok(Transformed {
            value: node,
            order,
            changed: false,
        })
    }

    fn visit_up(&mut self, node: Numbers) -> Walk<Transformed<Numbers>, NoMemory> {
        self.ups = self.ups.wrapping_add(1);
        Ok(Transformed::yes(node))
    }
}

/// Whether a stop on the way down leaves `1(2(4), 3)` as it is, and nothing goes up.
fn stop_keeps_grove(alloc: Global) -> Walk<bool, NoMemory> {
    let mut rewriter = StopsBelow { ups: 0 };
    let made = grove(alloc)?.rewrite(alloc, &mut rewriter)?;
    let stopped = made.order == TraversalOrder::Stop && !made.changed;
    Ok(stopped && rewriter.ups == 0 && made.value.children_count() == 2)
}

#[test]
fn a_stop_keeps_the_tree_and_its_order(rt: HostRuntime) -> Result<(), Fail> {
    assert!(rt; stop_keeps_grove(rt.alloc())?);
    Ok(())
}

/// The sum of all numbers; Stop with 5 at the number 5, and Skip with 0 at the number 9.
#[derive(Drop)]
struct Sum;

impl NodeFolder for Sum {
    type NodeTy = Numbers;

    type Result = u64;

    type Error = NoMemory;

    ghost down = { λ _ _ _ _. ⊤ };

    ghost up = { λ _ _ _ _ _. ⊤ };

    fn visit_down(&mut self, node: &Numbers) -> Walk<FoldDown<u64>, NoMemory> {
        match node.value() {
            5 => Ok(FoldDown::Stop(5)),
            9 => Ok(FoldDown::Skip(0)),
            _ => Ok(FoldDown::Continue),
        }
    }

    fn visit_up(&mut self, node: Numbers, children: Vec<u64>) -> Walk<FoldUp<u64>, NoMemory>
        ensures { ⊤ }
    {
        let mut sum = node.value();
        for child in children {
            sum = sum.wrapping_add(child);
        }
        Ok(FoldUp::Continue(sum))
    }
}

/// `0(inner(1, second), 3)`.
fn sums(alloc: Global, inner: u64, second: u64) -> Mem<Numbers> {
    let left = fork(alloc, inner, leaf(alloc, 1)?, leaf(alloc, second)?)?;
    fork(alloc, 0, left, leaf(alloc, 3)?)
}

/// The sum of `0(inner(1, second), 3)`, by a fold.
fn folded_sum(alloc: Global, inner: u64, second: u64) -> Walk<u64, NoMemory> {
    Ok(sums(alloc, inner, second)?.fold(alloc, &mut Sum)?.value())
}

// In the last two rows the Skip stands above all that is left out, in the last one above the Stop, which is never reached.
#[test]
fn folds(rt: HostRuntime) -> Result<(), Fail> {
    for (inner, second, sum) in [(0, 2, 6), (0, 5, 5), (0, 9, 4), (9, 2, 3), (9, 5, 3)] {
        assert!(rt; folded_sum(rt.alloc(), inner, second)? == sum);
    }
    Ok(())
}

/// Each context holds the numbers from the top on as digits. A number without others below it has
/// the context that it is handed as its result, and another the sum of what is below it. The fold
/// stops at 5.
#[derive(Drop)]
struct Trail;

impl NodeFolderContext for Trail {
    type NodeTy = Numbers;

    type Result = u64;

    type Context = u64;

    type Error = NoMemory;

    ghost down = { λ _ _ _ _ _. ⊤ };

    ghost up = { λ _ _ _ _ _ _. ⊤ };

    fn visit_down(
        &mut self,
        ctx: &u64,
        node: &Numbers,
    ) -> Walk<FoldDownContext<u64, u64>, NoMemory> {
        if node.value() == 5 {
            return Ok(FoldDownContext::Stop(*ctx));
        }
        if node.children_count() == 0 {
            return Ok(FoldDownContext::Skip(*ctx));
        }
        Ok(FoldDownContext::Continue(ctx.wrapping_mul(10).wrapping_add(node.value())))
    }

    fn visit_up(
        &mut self,
        _node: Numbers,
        _ctx: &u64,
        children: Vec<u64>,
    ) -> Walk<FoldUp<u64>, NoMemory>
        ensures { ⊤ }
    {
        let mut sum = 0u64;
        for child in children {
            sum = sum.wrapping_add(child);
        }
        Ok(FoldUp::Continue(sum))
    }
}

/// The sum of the contexts at the lowest numbers of `1(2(low), 3)`, by a fold.
fn trail_sum(alloc: Global, low: u64) -> Walk<u64, NoMemory> {
    Ok(
        branch(alloc, low)?
            .fold_context(alloc, &0, &mut Trail)?
            .value(),
    )
}

#[test]
fn a_child_gets_the_context_of_its_parent(rt: HostRuntime) -> Result<(), Fail> {
    for (low, sum) in [(4, 13), (5, 12)] {
        assert!(rt; trail_sum(rt.alloc(), low)? == sum);
    }
    Ok(())
}

/// A marked copy, with Stop at 3.
fn mark(node: Numbers) -> Walk<Transformed<Numbers>, NoMemory>
    ensures { IsNoHigher number_height node result }
{
    let order = order_at(node.value(), 3, 0);
    Ok(Transformed {
        value: node,
        order,
        changed: true,
    })
}

/// The numbers, each alone.
fn leaves(alloc: Global, numbers: &[u64]) -> Mem<Vec<Numbers>> {
    let mut made = Vec::new(alloc);
    for number in numbers {
        made.push(leaf(alloc, *number)?)?;
    }
    Ok(made)
}

/// The pair of the list of one number and the list of the others.
fn lists(alloc: Global, first: u64, others: &[u64]) -> Mem<(Vec<Numbers>, Vec<Numbers>)> {
    Ok((leaves(alloc, &[first])?, leaves(alloc, others)?))
}

/// The lists of 1 and of 3 and 4, in a box.
fn boxed_lists(alloc: Global) -> Mem<Box<(Vec<Numbers>, Vec<Numbers>)>> {
    Ok(Box::new(alloc, lists(alloc, 1, &[3, 4])?)?)
}

/// Whether a box hands over the numbers of its lists, and answers the order of the last.
fn boxed_lists_are_visited(alloc: Global) -> Mem<bool> {
    let boxed = boxed_lists(alloc)?;
    let mut seen = Vec::new(alloc);
    let order = boxed.apply_elements(|node: &Numbers| -> Mem<TraversalOrder> {
        seen.push(node.value())?;
        Ok(TraversalOrder::Skip)
    })?;
    Ok(order == TraversalOrder::Skip && seen.as_slice() == [1, 3, 4].as_slice())
}

/// Whether lists in a box are raised up to the Stop, and keep their lengths.
fn boxed_lists_are_mapped(alloc: Global) -> Walk<bool, NoMemory> {
    let mapped = boxed_lists(alloc)?.map_elements(alloc, raise)?;
    let stopped = mapped.order == TraversalOrder::Stop && mapped.changed;
    Ok(stopped && mapped.value.0.len() == 1)
}

#[test]
fn containers(rt: HostRuntime) -> Result<(), Fail> {
    let alloc = rt.alloc();
    assert!(rt; boxed_lists_are_visited(alloc)?);
    assert!(rt; boxed_lists_are_mapped(alloc)?);
    Ok(())
}

/// The number raised by ten, with Stop at 3 and Skip at 2.
fn raise(node: Numbers) -> Walk<Transformed<Numbers>, NoMemory> {
    let value = node.value();
    Ok(Transformed {
        value: node.renumbered(value.wrapping_add(10)),
        order: order_at(value, 3, 2),
        changed: true,
    })
}

/// The number as it is, with Stop at 3.
fn keep(node: Numbers) -> Walk<Transformed<Numbers>, NoMemory> {
    let order = order_at(node.value(), 3, 0);
    Ok(Transformed {
        value: node,
        order,
        changed: false,
    })
}

/// The numbers that a container hands over.
fn handed(alloc: Global, numbers: &(Vec<Numbers>, Vec<Numbers>)) -> Mem<Vec<u64>> {
    let mut seen = Vec::new(alloc);
    numbers.apply_elements(|node: &Numbers| -> Mem<TraversalOrder> {
        seen.push(node.value())?;
        Ok(TraversalOrder::Continue)
    })?;
    Ok(seen)
}

/// Whether lists are raised to these numbers, with this order after them.
fn raised_lists_are(
    alloc: Global,
    first: u64,
    others: &[u64],
    raised: &[u64],
    order: TraversalOrder,
) -> Walk<bool, NoMemory> {
    let mapped = lists(alloc, first, others)?.map_elements(alloc, raise)?;
    let numbers = handed(alloc, &mapped.value)?;
    Ok(numbers.as_slice() == raised && mapped.order == order)
}

/// Whether children that are kept up to the Stop leave their parent unchanged.
fn kept_children_change_nothing(alloc: Global) -> Walk<bool, NoMemory> {
    let kept = grove(alloc)?.map_children(alloc, keep)?;
    Ok(kept.order == TraversalOrder::Stop && !kept.changed)
}

#[test]
fn mapped_elements_keep_their_order(rt: HostRuntime) -> Result<(), Fail> {
    let alloc = rt.alloc();
    let (stop, skip) = (TraversalOrder::Stop, TraversalOrder::Skip);
    assert!(rt; raised_lists_are(alloc, 1, &[3, 4], &[11, 13, 4], stop)?);
    assert!(rt; raised_lists_are(alloc, 2, &[], &[12], skip)?);
    assert!(rt; kept_children_change_nothing(alloc)?);
    Ok(())
}

/// The lists of 7 and of nothing, and those of 8 and of 9, shared.
fn shared_lists(alloc: Global) -> Mem<Rc<Vec<(Vec<Numbers>, Vec<Numbers>)>>> {
    let both = vec![in alloc; lists(alloc, 7, &[])?, lists(alloc, 8, &[9])?]?;
    Ok(Rc::new(alloc, both)?)
}

/// Whether shared lists keep their lengths where they are mapped, and a clone keeps its own.
fn shared_lists_keep_their_shape(alloc: Global) -> Walk<bool, NoMemory> {
    let shared = shared_lists(alloc)?;
    let kept = shared.clone()?;
    let mapped = shared.map_elements(alloc, raise)?;
    let lengths = |held: &(Vec<Numbers>, Vec<Numbers>)| (held.0.len(), held.1.len());
    let as_long = mapped.value.iter().map(lengths).eq([(1, 0), (1, 1)]);
    Ok(as_long && mapped.changed && kept.len() == 2)
}

#[test]
fn shared_containers_keep_their_shape(rt: HostRuntime) -> Result<(), Fail> {
    assert!(rt; shared_lists_keep_their_shape(rt.alloc())?);
    Ok(())
}

/// The order Stop.
fn stop() -> Mem<TraversalOrder> {
    Ok(TraversalOrder::Stop)
}

/// What a value that a rewrite made gives where it is mapped and copied.
fn mapped_value() -> Mem<u64> {
    let next = Transformed::yes(6u64).map(|value| value.wrapping_add(1));
    Ok(next.clone()?.into_inner())
}

/// The number of a node that is made again without children.
fn value_with_no_children(alloc: Global) -> Mem<u64> {
    let bare = Numbers::new(alloc, 5, Vec::new(alloc))?;
    Ok(bare.with_node_children(alloc, Vec::new(alloc))?.value())
}

/// How many children `1(2(4), 3)` hands over.
fn children_of_grove(alloc: Global) -> Mem<usize> {
    grove(alloc)?.iter_children(alloc, |list| list.len())
}

/// The order after the children of `1(2(4), 3)` are raised.
fn order_after_raises(alloc: Global) -> Walk<TraversalOrder, NoMemory> {
    Ok(grove(alloc)?.map_children(alloc, raise)?.order)
}

/// Whether raises on the way up change `1(2(4), 3)`.
fn transform_up_changes(alloc: Global) -> Walk<bool, NoMemory> {
    Ok(grove(alloc)?.transform_up(alloc, raise)?.changed)
}

/// Whether marks on the way down change `1(2(4), 3)`.
fn transform_down_changes(alloc: Global) -> Walk<bool, NoMemory> {
    Ok(grove(alloc)?.transform_down(alloc, mark)?.changed)
}

#[test]
fn ample(rt: HostRuntime) -> Result<(), Fail> {
    let alloc = rt.alloc();
    assert!(rt; TraversalOrder::Skip.visit_children(stop)? == TraversalOrder::Continue);
    assert!(rt; TraversalOrder::Skip.visit_parent(stop)? == TraversalOrder::Skip);
    assert!(rt; mapped_value()? == 7);
    assert!(rt; value_with_no_children(alloc)? == 5);
    assert!(rt; children_of_grove(alloc)? == 2);
    assert!(rt; order_after_raises(alloc)? == TraversalOrder::Stop);
    assert!(rt; transform_up_changes(alloc)?);
    assert!(rt; transform_down_changes(alloc)?);
    Ok(())
}

/// The order after a node: Skip at 2.
fn after(node: &Numbers) -> Mem<TraversalOrder> {
    Ok(order_at(node.value(), 0, 2))
}

/// Whether a visit on the way up ends with the closure's error at 2.
fn error_ends_visit_up(alloc: Global) -> Mem<bool> {
    let tree = grove(alloc)?;
    let no_two = |node: &Numbers| {
        if node.value() == 2 {
            return Err(2u64);
        }
        Ok(TraversalOrder::Continue)
    };
    Ok(pre_order_visit_up(&tree, no_two) == Err(2))
}

/// The numbers of `1(2(4), 3)` that a visit on the way down meets, with Skip at 2.
fn seen_down(alloc: Global) -> Mem<Vec<u64>> {
    let tree = grove(alloc)?;
    let mut seen = Vec::new(alloc);
    pre_order_visit_down(&tree, |node: &Numbers| -> Mem<TraversalOrder> {
        seen.push(node.value())?;
        after(node)
    })?;
    Ok(seen)
}

/// The numbers of `1(2(4), 3)` that a visit on the way up meets.
fn seen_up(alloc: Global) -> Mem<Vec<u64>> {
    let tree = grove(alloc)?;
    let mut seen = Vec::new(alloc);
    pre_order_visit_up(&tree, |node: &Numbers| -> Mem<TraversalOrder> {
        seen.push(node.value())?;
        Ok(TraversalOrder::Continue)
    })?;
    Ok(seen)
}

/// The order after the children of `1(2(4), 3)`, with Skip at 2.
fn order_after_children(alloc: Global) -> Mem<TraversalOrder> {
    grove(alloc)?.apply_children(after)
}

/// The order after a list of 2 alone, with Skip at 2.
fn order_after_list(alloc: Global) -> Mem<TraversalOrder> {
    let two = leaf(alloc, 2)?;
    let list = vec![in alloc; &two]?;
    list.apply_ref_elements(after)
}

#[test]
fn closures(rt: HostRuntime) -> Result<(), Fail> {
    let alloc = rt.alloc();
    assert!(rt; error_ends_visit_up(alloc)?);
    assert!(rt; seen_down(alloc)?.as_slice() == [1, 2, 3].as_slice());
    assert!(rt; seen_up(alloc)?.as_slice() == [4, 2, 3, 1].as_slice());
    assert!(rt; order_after_children(alloc)? == TraversalOrder::Continue);
    assert!(rt; order_after_list(alloc)? == TraversalOrder::Skip);
    Ok(())
}
