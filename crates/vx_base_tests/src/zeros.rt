//! A fold whose exact result follows from the clauses of folds.
ghost use Rattle.std.specs.Prelude.{◌≡◌, IfOk};
ghost use Rattle.std.specs.List.{list_any};
ghost use Rattle.vx_base_tests.specs.Zeros.{holds_zero};

use crate::numbers::Numbers;
use crate::samples::pair;
use std::alloc::Global;
use std::test::Fail;
use vx_dtype::NoMemory;
use vx_traversal::{FoldDown, FoldUp, NodeExt, NodeFolder, Walk};

/// Whether one of these is true.
fn one_holds(below: &[bool]) -> bool
    ensures { result ≡ list_any (λ held. held) below.now }
{
    below.iter().any(|held| *held)
}

/// Whether a number of the tree is 0.
#[derive(Drop)]
struct ZeroFinder;

impl NodeFolder for ZeroFinder {
    ghost use Rattle.std.specs.Prelude.{◌≡◌, ◌==◌, ◌||◌, Ok, IfOk};
    ghost use Rattle.std.specs.List.{list_any};
    ghost use Rattle.vx_base_tests.specs.Numbers.{number_at};
    ghost use Rattle.vx_traversal.specs.declared.fold.FoldDown.{FoldDown};
    ghost use Rattle.vx_traversal.specs.declared.fold.FoldUp.{FoldUp};

    type NodeTy = Numbers;

    type Result = bool;

    type Error = NoMemory;

    ghost down = { λ _ _ answer _. answer ≡ Ok FoldDown.Continue };

    ghost up = { λ _ node below answer _. answer ≡ Ok (FoldUp.Continue ((number_at node == 0) || list_any (λ held. held) below)) };

    fn visit_down(&mut self, _node: &Numbers) -> Walk<FoldDown<bool>, NoMemory> {
        Ok(FoldDown::Continue)
    }

    fn visit_up(&mut self, node: Numbers, children: Vec<bool>) -> Walk<FoldUp<bool>, NoMemory>
        ensures { result ≡ Ok (FoldUp.Continue ((number_at node == 0) || list_any (λ held. held) children.items)) }
    {
        let below = one_holds(children.as_slice());
        Ok(FoldUp::Continue((node.value() == 0) | below))
    }
}

/// Whether a number of the tree is 0.
fn holds_zero(alloc: Global, tree: Numbers) -> Walk<bool, NoMemory>
    ensures { IfOk result (λ held. held ≡ holds_zero tree) }
{
    let mut folder = ZeroFinder;
    let folded = tree.fold(alloc, &mut folder)?;
    Ok(folded.value())
}

/// Whether a number of `above(below)` is 0.
fn pair_holds_zero(alloc: Global, above: u64, below: u64) -> Walk<bool, NoMemory> {
    holds_zero(alloc, pair(alloc, above, below)?)
}

#[test]
fn a_zero_is_found(rt: HostRuntime) -> Result<(), Fail> {
    assert!(rt; !pair_holds_zero(rt.alloc(), 1, 2)?);
    assert!(rt; pair_holds_zero(rt.alloc(), 0, 2)?);
    assert!(rt; pair_holds_zero(rt.alloc(), 1, 0)?);
    Ok(())
}
