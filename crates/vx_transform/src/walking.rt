// One walk in the place of select removal, merge removal and the taking of fields straight on packs.
ghost use Rattle.std.specs.Prelude.{◌≡◌, map, IfOk, IfSome, Ok};
ghost use Rattle.vx_dtype.specs.TypeViews.{type_view};
ghost use Rattle.vx_expr.specs.Nodes.{select_fields, select_child};
ghost use Rattle.vx_expr.specs.Trees.{trees_of, children_of};
ghost use Rattle.vx_passes.specs.Simplifying.{field_of_pack};
ghost use Rattle.vx_laws_removing.specs.Walking.{giving_by_head, givings_by_head, walked_select, walked_merge, walked_node, walked, passed};
ghost use Rattle.vx_transform.specs.CodeViews.{giving_view};
ghost use Rattle.vx_transform.specs.Rebuilds.{children_taken};
ghost use Rattle.vx_transform.specs.TransformAnswers.{AnswersBy, AnswersTree};

use crate::children::with_these;
use crate::errors::TransformError;
use crate::merged_structs::Giving;
use crate::merges::givings_pack;
use crate::pack_fields::FieldOfPack;
use crate::rebuilding::{Step, rebuild};
use crate::selects::selected_pack;
use crate::struct_heads::head_of;
use std::alloc::Global;
use vx_dtype::{DType, Mem, NoMemory, Nullability};
use vx_expr::{Expr, ExprRef, SelectExpr, VortexExpr};
use vx_typing::{TypeError, typed};

/// What select removal, merge removal and the taking of fields straight on packs make of a strictly typed expression; None of another.
///
/// The walk's refusals are none of the passes', since it may meet one in a part that these drop: where it has one the answer is None.
pub(crate) fn walked(alloc: Global, e: &ExprRef, scope: &DType) -> Mem<Option<ExprRef>>
    ensures { IfOk result (λ made. IfSome made (λ d. passed (type_view scope.now) e.now ≡ Ok d)) }
{
    match typed(alloc, e, scope) {
        Ok(_dtype) => walk(alloc, e, scope),
        Err(TypeError::NoMemory) => Err(NoMemory),
        Err(TypeError::NotStruct | TypeError::NullableSelect | TypeError::UnknownField) => Ok(None),
        Err(TypeError::DuplicateField | TypeError::TypeMismatch) => Ok(None),
    }
}

/// The expression, walked; None where the walk refuses it.
fn walk(alloc: Global, e: &ExprRef, scope: &DType) -> Mem<Option<ExprRef>>
    ensures { IfOk result (λ made. IfSome made (λ d. walked (type_view scope.now) e.now ≡ Ok d)) }
{
    match rebuild(alloc, e.clone()?, &WalkedNode { scope }) {
        Ok(made) => Ok(Some(made)),
        Err(TransformError::NoMemory) => Err(NoMemory),
        Err(TransformError::UnknownField | TransformError::NotStruct) => Ok(None),
        Err(TransformError::NullableSelect | TransformError::TypeMismatch) => Ok(None),
    }
}

/// What the walk makes of a node.
#[derive(Drop)]
struct WalkedNode<'a> {
    scope: &'a DType,
}

impl Step for WalkedNode<'_> {
    ghost step = { λ s. walked_node (type_view s.scope.now) };

    fn at(&self, alloc: Global, node: &ExprRef) -> Result<Option<ExprRef>, TransformError> {
        match node.expr() {
            Expr::GetItem(_) => FieldOfPack.at(alloc, node),
            Expr::Select(select) => Ok(Some(walked_select(alloc, select, self.scope)?)),
            Expr::Merge(merge) => {
                Ok(Some(walked_merge(alloc, node, merge.nullability(), self.scope)?))
            }
            _ => Ok(None),
        }
    }
}

/// A select as a pack, its fields straight on a pack at once that pack's values.
fn walked_select(alloc: Global, node: &SelectExpr, scope: &DType) -> Result<ExprRef, TransformError>
    ensures { AnswersTree (walked_select (type_view scope.now) (select_fields node.now) (select_child node.now)) result }
{
    let head = head_of(alloc, node.child(), scope)?;
    let pack = selected_pack(alloc, node, &head.names, head.nullability)?;
    values_taken(alloc, &pack)
}

/// A merge as a pack, its fields straight on a pack at once that pack's values.
fn walked_merge(
    alloc: Global,
    node: &ExprRef,
    nullability: Nullability,
    scope: &DType,
) -> Result<ExprRef, TransformError>
    ensures { AnswersTree (walked_merge (type_view scope.now) (trees_of (children_of node.now)) nullability) result }
{
    let given = givings_by_head(alloc, node, scope)?;
    let pack = givings_pack(alloc, given.as_slice(), nullability)?;
    values_taken(alloc, &pack)
}

/// An expression with each of its children that is a field straight on a pack as that pack's value.
fn values_taken(alloc: Global, pack: &ExprRef) -> Result<ExprRef, TransformError>
    ensures { AnswersTree (children_taken pack.now) result }
{
    let mut values = Vec::with_capacity(alloc, pack.children_count())?;
    for i in 0..pack.children_count() {
        let value = value_taken(alloc, pack.child_at(i))?;
        values.push(value)?;
    }
    Ok(with_these(alloc, pack, values)?)
}

/// A field straight on a pack as the pack's value; any other expression stays.
fn value_taken(alloc: Global, expr: &ExprRef) -> Result<ExprRef, TransformError>
    ensures { AnswersTree (field_of_pack expr.now) result }
{
    match FieldOfPack.at(alloc, expr)? {
        Some(value) => Ok(value),
        None => Ok(expr.clone()?),
    }
}

/// An expression over a scope of this type as one that goes into a merge.
fn giving_by_head(alloc: Global, expr: &ExprRef, scope: &DType) -> Result<Giving, TransformError>
    ensures { AnswersBy giving_view (giving_by_head (type_view scope.now) expr.now) result }
{
    let head = head_of(alloc, expr, scope)?;
    Ok(Giving {
        names: head.names,
        expr: expr.clone()?,
    })
}

/// The walked children of a merge, as the structs that go into it.
fn givings_by_head(
    alloc: Global,
    merge: &ExprRef,
    scope: &DType,
) -> Result<Vec<Giving>, TransformError>
    ensures { AnswersBy (λ made. map giving_view made.items) (givings_by_head (type_view scope.now) (trees_of (children_of merge.now))) result }
{
    let mut made = Vec::with_capacity(alloc, merge.children_count())?;
    for i in 0..merge.children_count() {
        let giving = giving_by_head(alloc, merge.child_at(i), scope)?;
        made.push(giving)?;
    }
    Ok(made)
}
