// Ranges and comparisons with a slot, falsified by the bounds of their operands.
ghost use Rattle.std.specs.Prelude.{◌≡◌, not};
ghost use Rattle.vx_dtype.specs.Order.{bound_operator};
ghost use Rattle.vx_expr.specs.Nodes.{dynamic_default, dynamic_dtype, dynamic_left, dynamic_operator, dynamic_slot};
ghost use Rattle.vx_expr.specs.Operators.{inverse_comparison};
ghost use Rattle.vx_expr.specs.Trees.{between, dynamic};
ghost use Rattle.vx_passes.specs.Falsifying.{and_of, bound_of, both, comparison_falsified, either, falsified, found_in, negation_falsified, or_of};
ghost use Rattle.vx_prune.specs.Finding.{Finds};

use crate::bounds::bound;
use crate::catalogs::StatsCatalog;
use crate::comparisons::comparison_falsified;
use crate::joins::joined_known;
use std::alloc::Global;
use vx_build::and;
use vx_dtype::{BetweenOptions, CompareOperator, Mem, Stat};
use vx_expr::{DynamicComparisonExpr, ExprRef, Operator};

/// The comparison that is true where this one is false.
pub(crate) fn inverse(operator: CompareOperator) -> CompareOperator
    ensures { result ≡ inverse_comparison operator }
{
    match operator {
        CompareOperator::Eq => CompareOperator::NotEq,
        CompareOperator::NotEq => CompareOperator::Eq,
        CompareOperator::Gt => CompareOperator::Lte,
        CompareOperator::Gte => CompareOperator::Lt,
        CompareOperator::Lt => CompareOperator::Gte,
        CompareOperator::Lte => CompareOperator::Gt,
    }
}

/// A range: one of its two comparisons is falsified; both are asked.
#[tactic(auto, unfolding(vx_passes::specs::Falsifying::falsified))]
pub(crate) fn range_falsified<C: StatsCatalog>(
    alloc: Global,
    value: &ExprRef,
    lower: &ExprRef,
    upper: &ExprRef,
    options: BetweenOptions,
    catalog: &mut C,
) -> Mem<Option<ExprRef>>
    ensures { Finds C.answer C.asked (λ known. falsified known (between value.now lower.now upper.now options)) catalog.old catalog.new result }
{
    let from = options.lower_strict.to_operator();
    let to = options.upper_strict.to_operator();
    either_falsified(alloc, lower, from, value, to, upper, catalog)
}

/// The negation of a range: both inverse comparisons are falsified; the second is asked only where the first is found.
#[tactic(auto, unfolding(vx_passes::specs::Falsifying::falsified))]
pub(crate) fn range_negation_falsified<C: StatsCatalog>(
    alloc: Global,
    value: &ExprRef,
    lower: &ExprRef,
    upper: &ExprRef,
    options: BetweenOptions,
    catalog: &mut C,
) -> Mem<Option<ExprRef>>
    ensures { Finds C.answer C.asked (λ known. negation_falsified known (between value.now lower.now upper.now options)) catalog.old catalog.new result }
{
    let from = inverse(options.lower_strict.to_operator());
    let to = inverse(options.upper_strict.to_operator());
    both_falsified(alloc, lower, from, value, to, upper, catalog)
}

/// One of two comparisons of a value is falsified, with what stands before it and behind it; both are asked.
fn either_falsified<C: StatsCatalog>(
    alloc: Global,
    lower: &ExprRef,
    from: CompareOperator,
    value: &ExprRef,
    to: CompareOperator,
    upper: &ExprRef,
    catalog: &mut C,
) -> Mem<Option<ExprRef>>
    ensures { Finds C.answer C.asked
        (λ known. either or_of (comparison_falsified known lower.now value.now from) (comparison_falsified known value.now upper.now to))
        catalog.old catalog.new result }
{
    let first = comparison_falsified(alloc, lower, value, from, catalog)?;
    let second = comparison_falsified(alloc, value, upper, to, catalog)?;
    joined_known(alloc, Operator::Or, first, second)
}

/// Both comparisons of a value are falsified; the second is asked only where the first is found.
fn both_falsified<C: StatsCatalog>(
    alloc: Global,
    lower: &ExprRef,
    from: CompareOperator,
    value: &ExprRef,
    to: CompareOperator,
    upper: &ExprRef,
    catalog: &mut C,
) -> Mem<Option<ExprRef>>
    ensures { Finds C.answer C.asked
        (λ known. both and_of (comparison_falsified known lower.now value.now from) (comparison_falsified known value.now upper.now to))
        catalog.old catalog.new result }
{
    let Some(first) = comparison_falsified(alloc, lower, value, from, catalog)? else {
        return Ok(None);
    };
    let Some(second) = comparison_falsified(alloc, value, upper, to, catalog)? else {
        return Ok(None);
    };
    Ok(Some(and(alloc, first, second)?))
}

/// A comparison with a slot: the bound that it needs stands in the inverse comparison with the same slot, the default negated.
#[tactic(auto, unfolding(vx_passes::specs::Falsifying::falsified))]
pub(crate) fn slot_falsified<C: StatsCatalog>(
    alloc: Global,
    node: &DynamicComparisonExpr,
    value: &ExprRef,
    catalog: &mut C,
) -> Mem<Option<ExprRef>>
    ensures { Finds C.answer C.asked
        (λ known. falsified known (dynamic value.now (dynamic_operator node.now) (dynamic_slot node.now) (dynamic_dtype node.now)
        (dynamic_default node.now))) catalog.old catalog.new result }
{
    match node.operator() {
        CompareOperator::Gt | CompareOperator::Gte => {
            slot_compared(alloc, node, value, Stat::Max, catalog)
        }
        CompareOperator::Lt | CompareOperator::Lte => {
            slot_compared(alloc, node, value, Stat::Min, catalog)
        }
        CompareOperator::Eq | CompareOperator::NotEq => Ok(None),
    }
}

/// The bound of an operand in the inverse comparison with a slot, the default negated.
fn slot_compared<C: StatsCatalog>(
    alloc: Global,
    node: &DynamicComparisonExpr,
    value: &ExprRef,
    needed: Stat,
    catalog: &mut C,
) -> Mem<Option<ExprRef>>
    ensures { Finds C.answer C.asked
        (λ known. found_in (λ b. dynamic b (inverse_comparison (dynamic_operator node.now)) (dynamic_slot node.now) (dynamic_dtype node.now)
        (not (dynamic_default node.now))) (bound_of known needed value.now)) catalog.old catalog.new result }
{
    let Some(found) = bound(alloc, value, needed, catalog)? else {
        return Ok(None);
    };
    let operator = inverse(node.operator());
    let (slot, default) = (node.slot(), !node.default_answer());
    let dtype = node.rhs_dtype().clone()?;
    Ok(Some(DynamicComparisonExpr::new_expr(alloc, found, operator, slot, dtype, default)?))
}
