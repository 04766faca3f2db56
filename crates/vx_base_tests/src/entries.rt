//! A visit whose exact result follows from the clauses of visits.
ghost use Rattle.std.specs.Prelude.{◌≡◌, [], ◌∷◌, IfOk};
ghost use Rattle.vx_base_tests.specs.Entries.{Writes, before_zero, met_numbers};
ghost use Rattle.vx_base_tests.specs.Numbers.{number_at};

use crate::numbers::Numbers;
use crate::samples::{fork, leaf, pair};
use std::alloc::Global;
use std::marker::Model;
use std::test::Fail;
use vx_dtype::{Mem, NoMemory};
use vx_traversal::{NodeExt, NodeVisitor, TraversalOrder};

/// Writes each number down before and after those below it, and stops at 0. It is seen as the
/// numbers that it holds.
#[derive(Drop)]
struct NumberLog {
    numbers: Vec<u64>,
}

impl Model for NumberLog {
    ghost use Rattle.std.specs.Prelude.{ℕ, List};

    ghost Value = { List ℕ };

    ghost view = { λ log. log.numbers.items };
}

impl NumberLog {
    /// Writes the number down; stops at 0.
    fn write_down(&mut self, number: u64) -> Mem<TraversalOrder>
        ensures { Writes (number ∷ []) self.old result self.new }
    {
        if number == 0 {
            return Ok(TraversalOrder::Stop);
        }
        self.numbers.push(number)?;
        Ok(TraversalOrder::Continue)
    }

    /// The numbers that it holds.
    fn into_numbers(self) -> Vec<u64>
        ensures { result.items ≡ self }
    {
        self.numbers
    }
}

impl<'a> NodeVisitor<'a> for NumberLog {
    type NodeTy = Numbers;

    type Error = NoMemory;

    ghost down = { λ before node answer after. Writes (number_at node ∷ []) before answer after };

    ghost up = { λ before node answer after. Writes (number_at node ∷ []) before answer after };

    fn visit_down(&mut self, node: &'a Numbers) -> Result<TraversalOrder, NoMemory> {
        self.write_down(node.value())
    }

    fn visit_up(&mut self, node: &'a Numbers) -> Result<TraversalOrder, NoMemory> {
        self.write_down(node.value())
    }
}

/// The log that holds no number.
fn empty_log(alloc: Global) -> NumberLog
    ensures { result ≡ [] }
{
    NumberLog {
        numbers: Vec::new(alloc),
    }
}

/// The numbers that a walk over the tree meets, up to the first 0: each one before and after those
/// below it.
fn met_before_zero(alloc: Global, tree: &Numbers) -> Mem<Vec<u64>>
    ensures { IfOk result (λ numbers. numbers.items ≡ before_zero (met_numbers tree.now)) }
{
    let mut log = empty_log(alloc);
    tree.accept(&mut log)?;
    Ok(log.into_numbers())
}

/// Whether these are the numbers met, up to the first 0, of `first(second(4), third)`.
fn meets(alloc: Global, first: u64, second: u64, third: u64, numbers: &[u64]) -> Mem<bool> {
    let tree = fork(alloc, first, pair(alloc, second, 4)?, leaf(alloc, third)?)?;
    Ok(met_before_zero(alloc, &tree)?.as_slice() == numbers)
}

#[test]
fn numbers_are_met_in_order_up_to_zero(rt: HostRuntime) -> Result<(), Fail> {
    let alloc = rt.alloc();
    assert!(rt; meets(alloc, 1, 2, 3, &[1, 2, 4, 4, 2, 3, 3, 1])?);
    assert!(rt; meets(alloc, 1, 2, 0, &[1, 2, 4, 4, 2])?);
    assert!(rt; meets(alloc, 1, 0, 3, &[1])?);
    assert!(rt; meets(alloc, 0, 2, 3, &[])?);
    Ok(())
}
