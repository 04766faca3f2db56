// The partitions: the parts of each annotation as one pack, simplified and typed.
ghost use Rattle.std.specs.Prelude.{◌≡◌, length, map, IfOk};
ghost use Rattle.vx_dtype.specs.TypeViews.{type_view};
ghost use Rattle.vx_passes.specs.Splitting.{packed_parts, part_names, partition_of, partitions_of};
ghost use Rattle.vx_transform.specs.TransformAnswers.{AnswersBy};
ghost use Rattle.vx_partition.specs.Views.{partition_view, share_view, shares_view};

use crate::annotation::Annotation;
use crate::shares::{Shares, part_name};
use std::alloc::Global;
use vx_dtype::{DType, FieldName, FieldNames, Mem, Nullability};
use vx_expr::ExprRef;
use vx_transform::{TransformError, pack_of, simplify_typed, type_of};

/// A partition: its annotation, its expression and the expression's type.
#[derive(Drop)]
pub(crate) struct Partition<A> {
    pub(crate) annotation: A,
    pub(crate) expr: ExprRef,
    pub(crate) dtype: DType,
}

/// The names of the parts of an annotation.
fn part_names<A: Annotation>(
    alloc: Global,
    annotation: &A,
    parts: &[ExprRef],
) -> Mem<Vec<FieldName>>
    ensures { IfOk result (λ names. names.items ≡ part_names (A.text annotation.now) 0 parts.now) }
{
    let mut names = Vec::new(alloc);
    for number in 0..parts.len() {
        names.push(part_name(alloc, annotation, number)?)?;
    }
    Ok(names)
}

/// The expressions, each shared.
fn shared(alloc: Global, exprs: &[ExprRef]) -> Mem<Vec<ExprRef>>
    ensures { IfOk result (λ shared. shared.items ≡ exprs.now) }
{
    let mut shared = Vec::new(alloc);
    for expr in exprs {
        shared.push(expr.clone()?)?;
    }
    Ok(shared)
}

/// The parts of an annotation as a pack under their names.
fn packed_parts<A: Annotation>(alloc: Global, annotation: &A, parts: &[ExprRef]) -> Mem<ExprRef>
    ensures { IfOk result (λ made. made ≡ packed_parts (A.text annotation.now) parts.now) }
{
    let names = part_names(alloc, annotation, parts)?;
    let values = shared(alloc, parts)?;
    pack_of(
        alloc,
        FieldNames::new(alloc, names)?,
        values,
        Nullability::NonNullable,
    )
}

/// The partition of an annotation and its parts over a scope of this type.
fn partition_of<A: Annotation>(
    alloc: Global,
    annotation: &A,
    parts: &[ExprRef],
    scope: &DType,
) -> Result<Partition<A>, TransformError>
    ensures { AnswersBy partition_view (partition_of A.text (type_view scope.now) (share_view (annotation.now, parts.now))) result }
{
    let packed = packed_parts(alloc, annotation, parts)?;
    let expr = simplify_typed(alloc, packed, scope)?;
    let dtype = type_of(alloc, &expr, scope)?;
    Ok(Partition {
        annotation: annotation.clone()?,
        expr,
        dtype,
    })
}

/// The partitions of the shares in order.
pub(crate) fn partitions_of<A: Annotation>(
    alloc: Global,
    shares: &Shares<A>,
    scope: &DType,
) -> Result<Vec<Partition<A>>, TransformError>
    ensures { AnswersBy (λ made. map partition_view made.items) (partitions_of A.text (type_view scope.now) (shares_view shares.now)) result }
{
    let mut made = Vec::new(alloc);
    for place in 0..shares.len() {
        let (annotation, parts) = shares.at(place);
        let partition = partition_of(alloc, annotation, parts, scope)?;
        made.push(partition)?;
    }
    Ok(made)
}
