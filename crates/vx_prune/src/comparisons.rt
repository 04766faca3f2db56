// Comparisons, falsified by the bounds of their operands.
ghost use Rattle.std.specs.Prelude.{◌≡◌};
ghost use Rattle.vx_passes.specs.Falsifying.{are_numbers, bounds_compared, bounds_falsified, comparison_falsified, count_of};
ghost use Rattle.vx_passes.specs.Falsifying.{equality_falsified, found_in, inequality_falsified, is_zero_count};
ghost use Rattle.vx_prune.specs.Finding.{Finds};

use crate::bounds::{bound, count};
use crate::catalogs::StatsCatalog;
use crate::joins::{above, behind_guard, compared_by, is_zero_count, joined_known, one_value};
use std::alloc::Global;
use vx_dtype::{CompareOperator, Mem, Stat};
use vx_expr::{ExprRef, Operator};

/// A comparison: where its bounds falsify, the counts of values that are not a number are asked too, and stand before.
pub(crate) fn comparison_falsified<C: StatsCatalog>(
    alloc: Global,
    left: &ExprRef,
    right: &ExprRef,
    operator: CompareOperator,
    catalog: &mut C,
) -> Mem<Option<ExprRef>>
    ensures { Finds C.answer C.asked (λ known. comparison_falsified known left.now right.now operator) catalog.old catalog.new result }
{
    match bounds_falsified(alloc, operator, left, right, catalog)? {
        Some(falsified) => {
            let guard = are_numbers(alloc, left, right, catalog)?;
            Ok(Some(behind_guard(alloc, guard, falsified)?))
        }
        None => Ok(None),
    }
}

/// A comparison, by the bounds of its operands alone.
fn bounds_falsified<C: StatsCatalog>(
    alloc: Global,
    operator: CompareOperator,
    left: &ExprRef,
    right: &ExprRef,
    catalog: &mut C,
) -> Mem<Option<ExprRef>>
    ensures { Finds C.answer C.asked (λ known. bounds_falsified known operator left.now right.now) catalog.old catalog.new result }
{
    match operator {
        CompareOperator::Gt => {
            let inverse = CompareOperator::Lte;
            bounds_compared(alloc, Stat::Max, left, inverse, Stat::Min, right, catalog)
        }
        CompareOperator::Gte => {
            let inverse = CompareOperator::Lt;
            bounds_compared(alloc, Stat::Max, left, inverse, Stat::Min, right, catalog)
        }
        CompareOperator::Lt => {
            let inverse = CompareOperator::Gte;
            bounds_compared(alloc, Stat::Min, left, inverse, Stat::Max, right, catalog)
        }
        CompareOperator::Lte => {
            let inverse = CompareOperator::Gt;
            bounds_compared(alloc, Stat::Min, left, inverse, Stat::Max, right, catalog)
        }
        CompareOperator::Eq => equality_falsified(alloc, left, right, catalog),
        CompareOperator::NotEq => inequality_falsified(alloc, left, right, catalog),
    }
}

/// Two bounds compared, of which the second is asked only where the first is found.
fn bounds_compared<C: StatsCatalog>(
    alloc: Global,
    stat: Stat,
    left: &ExprRef,
    operator: CompareOperator,
    other: Stat,
    right: &ExprRef,
    catalog: &mut C,
) -> Mem<Option<ExprRef>>
    ensures { Finds C.answer C.asked (λ known. bounds_compared known stat left.now operator other right.now) catalog.old catalog.new result }
{
    let Some(first) = bound(alloc, left, stat, catalog)? else {
        return Ok(None);
    };
    let Some(second) = bound(alloc, right, other, catalog)? else {
        return Ok(None);
    };
    Ok(Some(compared_by(alloc, operator, first, second)?))
}

/// Equality: the least of one side above the greatest of the other, by those bounds that are found.
fn equality_falsified<C: StatsCatalog>(
    alloc: Global,
    left: &ExprRef,
    right: &ExprRef,
    catalog: &mut C,
) -> Mem<Option<ExprRef>>
    ensures { Finds C.answer C.asked (λ known. equality_falsified known left.now right.now) catalog.old catalog.new result }
{
    let least_left = bound(alloc, left, Stat::Min, catalog)?;
    let greatest_left = bound(alloc, left, Stat::Max, catalog)?;
    let least_right = bound(alloc, right, Stat::Min, catalog)?;
    let greatest_right = bound(alloc, right, Stat::Max, catalog)?;
    let left_above = above(alloc, least_left, greatest_right)?;
    let right_above = above(alloc, least_right, greatest_left)?;
    joined_known(alloc, Operator::Or, left_above, right_above)
}

/// Inequality: both sides are one and the same value; each bound is asked where those before it are found.
fn inequality_falsified<C: StatsCatalog>(
    alloc: Global,
    left: &ExprRef,
    right: &ExprRef,
    catalog: &mut C,
) -> Mem<Option<ExprRef>>
    ensures { Finds C.answer C.asked (λ known. inequality_falsified known left.now right.now) catalog.old catalog.new result }
{
    let Some(least_left) = bound(alloc, left, Stat::Min, catalog)? else {
        return Ok(None);
    };
    let Some(greatest_left) = bound(alloc, left, Stat::Max, catalog)? else {
        return Ok(None);
    };
    let Some(least_right) = bound(alloc, right, Stat::Min, catalog)? else {
        return Ok(None);
    };
    let Some(greatest_right) = bound(alloc, right, Stat::Max, catalog)? else {
        return Ok(None);
    };
    Ok(Some(one_value(
        alloc,
        least_left,
        greatest_left,
        least_right,
        greatest_right,
    )?))
}

/// The test that the counts of values that are not a number are 0, for the operands that have such a count.
fn are_numbers<C: StatsCatalog>(
    alloc: Global,
    left: &ExprRef,
    right: &ExprRef,
    catalog: &mut C,
) -> Mem<Option<ExprRef>>
    ensures { Finds C.answer C.asked (λ known. are_numbers known left.now right.now) catalog.old catalog.new result }
{
    let first = has_none(alloc, left, Stat::NaNCount, catalog)?;
    let second = has_none(alloc, right, Stat::NaNCount, catalog)?;
    joined_known(alloc, Operator::And, first, second)
}

/// The test that a count of an operand is 0, where it has such a count.
pub(crate) fn has_none<C: StatsCatalog>(
    alloc: Global,
    expr: &ExprRef,
    stat: Stat,
    catalog: &mut C,
) -> Mem<Option<ExprRef>>
    ensures { Finds C.answer C.asked (λ known. found_in is_zero_count (count_of known stat expr.now)) catalog.old catalog.new result }
{
    match count(alloc, expr, stat, catalog)? {
        Some(count) => Ok(Some(is_zero_count(alloc, count)?)),
        None => Ok(None),
    }
}
