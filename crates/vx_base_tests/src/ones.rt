//! A rewrite whose exact result follows from the clauses of rewrites.
ghost use Rattle.std.specs.Prelude.{◌≡◌, IfOk};
ghost use Rattle.vx_base_tests.specs.Ones.{HasOnes, one_for_zero};

use crate::numbers::Numbers;
use crate::samples::pair;
use std::alloc::Global;
use std::test::Fail;
use vx_dtype::NoMemory;
use vx_traversal::{Node, NodeExt, NodeRewriter, Transformed, TraversalOrder, Walk};

/// 1 for 0, else the number itself.
fn one_for_zero(number: u64) -> u64
    ensures { result ≡ one_for_zero number }
{
    if number == 0 { 1 } else { number }
}

/// Puts 1 in place of 0 on the way down.
#[derive(Drop)]
struct OneForZero;

impl NodeRewriter for OneForZero {
    ghost use Rattle.std.specs.Prelude.{◌≡◌, ◌==◌, Ok, false};
    ghost use Rattle.vx_base_tests.specs.Numbers.{number_at};
    ghost use Rattle.vx_base_tests.specs.Ones.{top_with_one};
    ghost use Rattle.vx_traversal.specs.declared.order.TraversalOrder.{TraversalOrder};

    type NodeTy = Numbers;

    type Error = NoMemory;

    ghost down = { λ _ node answer _. answer ≡ Ok (record { value = top_with_one node; order = TraversalOrder.Continue; changed = number_at node == 0 }) };

    ghost up = { λ _ node answer _. answer ≡ Ok (record { value = node; order = TraversalOrder.Continue; changed = false }) };

    fn visit_down(&mut self, node: Numbers) -> Walk<Transformed<Numbers>, NoMemory> {
        let number = node.value();
        Ok(Transformed {
            value: node.renumbered(one_for_zero(number)),
            order: TraversalOrder::Continue,
            changed: number == 0,
        })
    }

    fn visit_up(&mut self, node: Numbers) -> Walk<Transformed<Numbers>, NoMemory> {
        Ok(Transformed::no(node))
    }
}

/// The tree with 1 in place of each 0, changed exactly where it has a 0.
fn with_ones(alloc: Global, tree: Numbers) -> Walk<Transformed<Numbers>, NoMemory>
    ensures { IfOk result (HasOnes tree) }
{
    let mut rewriter = OneForZero;
    tree.rewrite(alloc, &mut rewriter)
}

/// Whether a tree is `above(below)`.
fn is_pair(tree: &Numbers, above: u64, below: u64) -> bool {
    if tree.children_count() != 1 {
        return false;
    }
    tree.value() == above && tree.node_child(0).value() == below
}

/// Whether a pair becomes this pair of numbers, `changed` or not, with the order Continue.
fn pair_becomes(
    alloc: Global,
    given: (u64, u64),
    wanted: (u64, u64),
    changed: bool,
) -> Walk<bool, NoMemory> {
    let made = with_ones(alloc, pair(alloc, given.0, given.1)?)?;
    let goes_on = made.order == TraversalOrder::Continue;
    Ok(is_pair(&made.value, wanted.0, wanted.1) && made.changed == changed && goes_on)
}

#[test]
fn zeros_become_ones(rt: HostRuntime) -> Result<(), Fail> {
    for (given, wanted, changed) in [
        ((2, 3), (2, 3), false),
        ((2, 0), (2, 1), true),
        ((0, 3), (1, 3), true),
        ((0, 0), (1, 1), true),
    ] {
        assert!(rt; pair_becomes(rt.alloc(), given, wanted, changed)?);
    }
    Ok(())
}
