// The structs that go into a merge.
ghost use Rattle.std.specs.Prelude.{◌≡◌, map};
ghost use Rattle.vx_dtype.specs.TypeViews.{type_view};
ghost use Rattle.vx_expr.specs.Trees.{trees_of, children_of};
ghost use Rattle.vx_semantics.specs.Typing.{and_then};
ghost use Rattle.vx_semantics.specs.LooseTyping.{loosely_typed};
ghost use Rattle.vx_passes.specs.Merging.{giving_of, givings};
ghost use Rattle.vx_transform.specs.CodeViews.{giving_view};
ghost use Rattle.vx_transform.specs.TransformAnswers.{AnswersBy};

use crate::errors::TransformError;
use crate::types::type_of;
use std::alloc::Global;
use vx_dtype::{DType, FieldNames};
use vx_expr::{ExprRef, VortexExpr};

/// A struct that goes into a merge: the names of its type's fields, and its expression.
#[derive(Drop)]
pub(crate) struct Giving {
    pub(crate) names: FieldNames,
    pub(crate) expr: ExprRef,
}

/// An expression of this type as one that goes into a merge.
fn giving_of(expr: &ExprRef, dtype: DType) -> Result<Giving, TransformError>
    ensures { AnswersBy giving_view (giving_of expr.now (type_view dtype)) result }
{
    match dtype {
        DType::Struct(fields, _) => Ok(Giving {
            names: fields.names().clone()?,
            expr: expr.clone()?,
        }),
        _ => Err(TransformError::NotStruct),
    }
}

/// An expression over a scope of this type as one that goes into a merge.
fn typed_giving(alloc: Global, expr: &ExprRef, scope: &DType) -> Result<Giving, TransformError>
    ensures { AnswersBy giving_view (and_then (loosely_typed (type_view scope.now) expr.now) (giving_of expr.now)) result }
{
    giving_of(expr, type_of(alloc, expr, scope)?)
}

/// The children of a merge, as the structs that go into it.
pub(crate) fn givings(
    alloc: Global,
    merge: &ExprRef,
    scope: &DType,
) -> Result<Vec<Giving>, TransformError>
    ensures { AnswersBy (λ made. map giving_view made.items) (givings (type_view scope.now) (trees_of (children_of merge.now))) result }
{
    let mut made = Vec::with_capacity(alloc, merge.children_count())?;
    for i in 0..merge.children_count() {
        let giving = typed_giving(alloc, merge.child_at(i), scope)?;
        made.push(giving)?;
    }
    Ok(made)
}
