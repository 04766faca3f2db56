//! The passes that [`crate::simplify`] and [`crate::simplify_typed`] are made of.
ghost use Rattle.std.specs.Prelude.{◌≡◌, IfOk};
ghost use Rattle.vx_dtype.specs.TypeViews.{type_view};
ghost use Rattle.vx_passes.specs.Ranges.{ranged};
ghost use Rattle.vx_passes.specs.Selecting.{without_select};
ghost use Rattle.vx_passes.specs.Merging.{without_merge};
ghost use Rattle.vx_transform.specs.TransformAnswers.{AnswersTree};

use crate::errors::TransformError;
use crate::merges::MergeAsPack;
use crate::pairing::{is_joined_left, with_ranges};
use crate::rebuilding::rebuild;
use crate::selects::SelectAsPack;
use std::alloc::Global;
use vx_build::{and_collect_right, conjuncts};
use vx_dtype::{DType, Mem};
use vx_expr::ExprRef;

/// The expression with ranges among its conjuncts: each conjunct, from the left, is paired with the first later one that bounds the
/// same field access from the other side, where both compare it with a constant; their range stands in the earlier place, and the
/// conjuncts are joined by `and` to the left. Refuses only where memory runs out.
///
/// Source of the rule: a value lies in a range exactly where it is at or above the lower bound and at or below the upper one.
///
/// Laws: `vx_laws_simplifying::ranges_keep_type`, `ranges_keep_meaning`, `ranges_keep_breaks` and `ranges_keep_columns`.
pub fn find_between(alloc: Global, expr: ExprRef) -> Mem<ExprRef>
    ensures { IfOk result (λ made. made ≡ ranged expr) }
{
    let found = conjuncts(alloc, &expr)?;
    let count = found.len();
    let made = with_ranges(alloc, found)?;
    if made.len() == count && is_joined_left(&expr) {
        return Ok(expr);
    }
    match and_collect_right(alloc, made)? {
        Some(joined) => Ok(joined),
        None => Ok(expr),
    }
}

/// The expression over a scope of this type with each select replaced, from the leaves up, by a pack, not nullable, of the fields that
/// it takes, each a field access on its child: included fields in their listed order, or all but the excluded ones in the struct's.
///
/// At the first select in post-order that can't be replaced, and exactly there, it refuses: with what the looser typing of the select's
/// child refuses; else with NotStruct where that type is no struct; else with NullableSelect where the struct is nullable; else with
/// UnknownField where a listed name, also an excluded one, is not a field of it.
///
/// Source of the rule: to select fields is to pack them, and from a struct that may be null no field can be packed without its null.
///
/// Laws: `vx_laws_removing::without_select_keeps`.
pub fn remove_select(alloc: Global, e: ExprRef, ctx: &DType) -> Result<ExprRef, TransformError>
    ensures { AnswersTree (without_select (type_view ctx.now) e) result }
{
    rebuild(alloc, e, &SelectAsPack { scope: ctx })
}

/// The expression over a scope of this type with each merge replaced, from the leaves up, by a pack of the fields that its children
/// give together, in order of first appearance, each a field access on the last child that has the field.
///
/// At the first merge in post-order that can't be replaced, and exactly there, it refuses, for the merge's first child that has a
/// refusal: with what the looser typing of the child refuses; else with NotStruct where that type is no struct.
///
/// Source of the rule: of one name the later struct's field counts.
///
/// Laws: `vx_laws_removing::without_merge_keeps`.
pub fn remove_merge(alloc: Global, e: ExprRef, ctx: &DType) -> Result<ExprRef, TransformError>
    ensures { AnswersTree (without_merge (type_view ctx.now) e) result }
{
    rebuild(alloc, e, &MergeAsPack { scope: ctx })
}
