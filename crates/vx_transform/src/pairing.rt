// The conjuncts of an expression, paired into ranges.
ghost use Rattle.std.specs.Prelude.{◌≡◌, ◌<◌, true, Some, length, slice_get, set, IfOk, OnOk};
ghost use Rattle.vx_expr.specs.declared.Operator.{Operator};
ghost use Rattle.vx_expr.specs.Conjuncts.{conjuncts_of};
ghost use Rattle.vx_expr.specs.Trees.{Tree};
ghost use Rattle.vx_build.specs.Collectors.{joined_left};
ghost use Rattle.vx_passes.specs.Ranges.{range_of, with_ranges};
ghost use Rattle.vx_transform.specs.CodeViews.{Waits};
ghost use Rattle.vx_transform.specs.Pairs.{taken_in};

use crate::range_bounds::{bound_of, range_of};
use crate::unpaired_bounds::Waiting;
use std::alloc::Global;
use std::collections::VecDeque;
use vx_build::operands_of_and;
use vx_dtype::Mem;
use vx_expr::ExprRef;

/// Puts the range of the conjunct at a place and a later one in that place.
fn put_range(alloc: Global, made: &mut Vec<ExprRef>, place: usize, later: &ExprRef) -> Mem<()>
    requires { place < length made.old.items }
    ensures { (c range : Tree) → slice_get made.old.items place ≡ Some c → range_of c later.now ≡ Some range →
        OnOk result (made.new.items ≡ set made.old.items place range) }
{
    if let Some(range) = range_of(alloc, &made[place], later)? {
        made[place] = range;
    }
    Ok(())
}

/// Takes in a conjunct: its range with the first one that waits for it stands in the place of that one; else it stands behind all, and
/// waits where it is a bound.
fn take_in(
    alloc: Global,
    conjunct: ExprRef,
    made: &mut Vec<ExprRef>,
    waiting: &mut Waiting,
) -> Mem<()>
    requires { Waits waiting.old made.old.items }
    ensures made { OnOk result (made.new.items ≡ taken_in made.old.items conjunct) }
    ensures waits { OnOk result (Waits waiting.new made.new.items) }
{
    let Some(bound) = bound_of(&conjunct) else {
        made.push(conjunct)?;
        return Ok(());
    };
    if let Some(place) = waiting.take_first(&bound) {
        return put_range(alloc, made, place, &conjunct);
    }
    waiting.add(alloc, &bound, made.len())?;
    made.push(conjunct)?;
    Ok(())
}

/// The conjuncts in order, each paired with the first later one that makes a range with it.
pub(crate) fn with_ranges(alloc: Global, conjuncts: Vec<ExprRef>) -> Mem<Vec<ExprRef>>
    ensures ranges { IfOk result (λ made. made.items ≡ with_ranges (length conjuncts.items) conjuncts.items) }
    ensures without { IfOk result (λ made. length made.items ≡ length conjuncts.items → made.items ≡ conjuncts.items) }
{
    let mut made = Vec::with_capacity(alloc, conjuncts.len())?;
    let mut waiting = Waiting::new(alloc);
    let mut left = VecDeque::from(conjuncts);
    while let Some(conjunct) = left.pop_front() {
        take_in(alloc, conjunct, &mut made, &mut waiting)?;
    }
    Ok(made)
}

/// Whether an expression is its conjuncts, joined by `and` to the left.
pub(crate) fn is_joined_left(expr: &ExprRef) -> bool
    ensures { result ≡ true → joined_left Operator.And (conjuncts_of expr.now) ≡ Some expr.now }
{
    let mut first = expr;
    while let Some((others, last)) = operands_of_and(first) {
        if operands_of_and(last).is_some() {
            return false;
        }
        first = others;
    }
    true
}
