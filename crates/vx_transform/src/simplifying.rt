// Simplifying expressions, without types and by types.
ghost use Rattle.vx_dtype.specs.TypeViews.{type_view};
ghost use Rattle.vx_passes.specs.Simplifying.{simplified};
ghost use Rattle.vx_passes.specs.TypedSimplifying.{simplified_typed};
ghost use Rattle.vx_laws_removing.specs.Walking.{passed};
ghost use Rattle.vx_transform.specs.TransformAnswers.{AnswersTree};

use crate::errors::TransformError;
use crate::laws::{find_between, remove_merge, remove_select};
use crate::pack_fields::FieldOfPack;
use crate::rebuilding::rebuild;
use crate::walking::walked;
use std::alloc::Global;
use vx_dtype::DType;
use vx_expr::ExprRef;

/// The expression with each field that is taken straight from a pack replaced by the pack's first value of that name, from the leaves
/// up, and then with its ranges found as [`find_between`] finds them. What nothing changes is shared with the expression.
///
/// UnknownField exactly where, once the children are simplified, a field is taken straight from a pack that has no field of that name;
/// no other refusal but NoMemory.
///
/// Source of the rule: a pack is a struct of named values, so its field is the value of that name.
///
/// Laws: `vx_laws_simplifying::simplified_keeps` and `without_packed_fields_keeps`.
pub fn simplify(alloc: Global, e: ExprRef) -> Result<ExprRef, TransformError>
    ensures { AnswersTree (simplified e) result }
{
    let made = rebuild(alloc, e, &FieldOfPack)?;
    Ok(find_between(alloc, made)?)
}

/// The expression over a scope of this type, simplified, without selects, without merges, and simplified again: four passes in this
/// order, each over what the one before it made. Of a strictly typed expression one walk from the leaves up does the work of the passes
/// that remove selects, merges and fields straight on packs, so that nested selects and merges don't multiply on the way.
///
/// Refuses with the first pass's refusal: those of [`simplify`], [`remove_select`], [`remove_merge`] and [`simplify`], each exactly as
/// that call says. An expression that is strictly typed over the scope is not refused.
///
/// Source of the rule: selects and merges are short for packs of fields, and fields of packs are the packs' values.
///
/// Laws: `vx_laws_removing::simplified_typed_keeps`, `simplified_nodes_are_simple` and `simplified_stays`; of its size
/// `vx_laws_removing::simplified_stays_small`; where the row was replaced by its fields before, all of `vx_laws_parts`.
pub fn simplify_typed(alloc: Global, e: ExprRef, ctx: &DType) -> Result<ExprRef, TransformError>
    ensures { AnswersTree (simplified_typed (type_view ctx.now) e) result }
{
    let simplified = simplify(alloc, e)?;
    let walked = without_structs(alloc, simplified, ctx)?;
    Ok(find_between(alloc, walked)?)
}

/// What select removal, merge removal and the taking of fields straight on packs make of the expression, one after another: by one walk
/// where the expression is strictly typed, else by a pass each, since a walk may refuse what lies in a part that these drop.
fn without_structs(alloc: Global, e: ExprRef, ctx: &DType) -> Result<ExprRef, TransformError>
    ensures { AnswersTree (passed (type_view ctx.now) e) result }
{
    match walked(alloc, &e, ctx)? {
        Some(made) => Ok(made),
        None => by_passes(alloc, e, ctx),
    }
}

/// The same by a pass each.
fn by_passes(alloc: Global, e: ExprRef, ctx: &DType) -> Result<ExprRef, TransformError>
    ensures { AnswersTree (passed (type_view ctx.now) e) result }
{
    let without_select = remove_select(alloc, e, ctx)?;
    let without_merge = remove_merge(alloc, without_select, ctx)?;
    rebuild(alloc, without_merge, &FieldOfPack)
}
