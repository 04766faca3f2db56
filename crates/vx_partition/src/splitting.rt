// An expression in parts: a root over what the partitions give, and the partitions.
ghost use Rattle.std.specs.Prelude.{◌≡◌, [], Ok, length, map, option_copied, position, IfOk};
ghost use Rattle.vx_dtype.specs.TypeViews.{type_view};
ghost use Rattle.vx_passes.specs.Annotating.{annotated};
ghost use Rattle.vx_passes.specs.Splitting.{split, taken_from, with_root};
ghost use Rattle.vx_semantics.specs.Typing.{and_then};
ghost use Rattle.vx_transform.specs.TransformAnswers.{AnswersBy};
ghost use Rattle.vx_partition.specs.Splits.{first_of, in_columns, split_view};
ghost use Rattle.vx_partition.specs.Takings.{taken_as};
ghost use Rattle.vx_partition.specs.Views.{partition_view, shares_view};

use crate::annotating::{is_touched, numbered_annotations};
use crate::annotation::{Annotation, AnnotationFn};
use crate::partitions::{Partition, partitions_of};
use crate::shares::{Shares, text_name};
use crate::taking::take;
use std::alloc::Global;
use vx_dtype::{DType, FieldNames, Mem, Nullability, StructFields};
use vx_expr::ExprRef;
use vx_transform::{TransformError, simplify_typed};

/// An expression in parts: the root, which reads the fields that the partitions give, and for each annotation, in order of first use,
/// the partition's expression, the name of its field in the root's scope, its type and the annotation.
#[derive(Debug, Drop)]
pub struct PartitionedExpr<A> {
    pub root: ExprRef,
    pub partitions: Vec<ExprRef>,
    pub partition_names: FieldNames,
    pub partition_dtypes: Vec<DType>,
    pub partition_annotations: Vec<A>,
}

impl<A: Annotation> PartitionedExpr<A> {
    /// The expression of the first partition whose annotation equals this one.
    pub fn find_partition(&self, id: &A) -> Option<&ExprRef>
        ensures { option_copied result ≡ first_of (A.eq id.now) self.now.partition_annotations.items self.now.partitions.items }
    {
        match place_of(id, self.partition_annotations.as_slice()) {
            Some(place) => self.partitions.as_slice().get(place),
            None => None,
        }
    }
}

/// The place of the first of these annotations that equals this one.
fn place_of<A: Annotation>(id: &A, annotations: &[A]) -> Option<usize>
    ensures { result ≡ position (A.eq id.now) annotations.now }
{
    annotations.iter().position(|annotation| id == annotation)
}

/// An expression over a scope of this type, split by the annotations of a rule. Going down from the root, left to right, each expression
/// whose entry, as [`crate::descendent_annotations`] makes it, has exactly one annotation becomes the next part of this annotation, and its
/// place takes the part's field, `<annotation>_<number>` counted from 0, of the field `<annotation>` of the row. The parts of each
/// annotation are packed under these names, not nullable, simplified by types over the scope and typed by the looser rules. The root is
/// simplified by types over the struct, not nullable, of what the partitions give.
///
/// Refuses with the first refusal of these: of the partitions, each first of its simplifying and then of its typing, in order, and then
/// of the root's simplifying.
///
/// Source of the rule: what reads one column alone can be computed where this column is read.
///
/// Laws: those of `vx_laws_parts`.
pub fn partition<F: AnnotationFn>(
    alloc: Global,
    expr: ExprRef,
    scope: &DType,
    annotate_fn: &F,
) -> Result<PartitionedExpr<F::Annotation>, TransformError>
    ensures { let text = F.Annotation.text in
        let told = split F.Annotation.eq text (F.annotated annotate_fn.now) (type_view scope.now) expr in
        AnswersBy split_view (and_then told (λ made. Ok (in_columns text made))) result }
{
    let (root, shares) = taken_out(alloc, expr, annotate_fn)?;
    let partitions = partitions_of(alloc, &shares, scope)?;
    with_root(alloc, root, partitions.as_slice())
}

/// An expression without the parts that the annotations of a rule make of it, and the parts. Where no node is annotated, none is numbered.
fn taken_out<F: AnnotationFn>(
    alloc: Global,
    expr: ExprRef,
    annotate: &F,
) -> Mem<(ExprRef, Shares<F::Annotation>)>
    ensures { let found = annotated F.Annotation.eq (F.annotated annotate.now) expr in
        IfOk result (λ made. taken_from F.Annotation.eq F.Annotation.text found expr [] ≡ taken_as made.0 (shares_view made.1)) }
{
    let touched = is_touched(alloc, &expr, annotate)?;
    if !touched {
        return Ok((expr, Shares::new(alloc)));
    }
    let (found, number) = numbered_annotations(alloc, &expr, annotate)?;
    let (made, shares) = take(alloc, &expr, number, &found)?;
    Ok((made.unwrap_or(expr), shares))
}

/// The root over what the partitions give, and these.
fn with_root<A: Annotation>(
    alloc: Global,
    root: ExprRef,
    partitions: &[Partition<A>],
) -> Result<PartitionedExpr<A>, TransformError>
    ensures { AnswersBy split_view (and_then (with_root A.text root (map partition_view partitions.now)) (λ made. Ok (in_columns A.text made))) result }
{
    let partition_names = names_of(alloc, partitions)?;
    let fields = StructFields::new(
        alloc,
        partition_names.clone()?,
        dtypes_of(alloc, partitions)?,
    )?;
    let scope = DType::Struct(fields, Nullability::NonNullable);
    let root = simplify_typed(alloc, root, &scope)?;
    Ok(PartitionedExpr {
        root,
        partitions: exprs_of(alloc, partitions)?,
        partition_names,
        partition_dtypes: dtypes_of(alloc, partitions)?,
        partition_annotations: annotations_of(alloc, partitions)?,
    })
}

/// The texts of the annotations, as names.
fn names_of<A: Annotation>(alloc: Global, partitions: &[Partition<A>]) -> Mem<FieldNames>
    ensures { IfOk result (λ names. names ≡ map (λ p. A.text p.annotation) (map partition_view partitions.now)) }
{
    let mut names = Vec::new(alloc);
    for partition in partitions {
        names.push(text_name(alloc, &partition.annotation)?)?;
    }
    FieldNames::new(alloc, names)
}

/// The expressions of the partitions.
fn exprs_of<A>(alloc: Global, partitions: &[Partition<A>]) -> Mem<Vec<ExprRef>>
    ensures { IfOk result (λ exprs. exprs.items ≡ map (λ p. p.expression) (map partition_view partitions.now)) }
{
    let mut exprs = Vec::new(alloc);
    for partition in partitions {
        exprs.push(partition.expr.clone()?)?;
    }
    Ok(exprs)
}

/// The types of the partitions.
fn dtypes_of<A>(alloc: Global, partitions: &[Partition<A>]) -> Mem<Vec<DType>>
    ensures { IfOk result (λ dtypes. map type_view dtypes.items ≡ map (λ p. p.ty) (map partition_view partitions.now)) }
{
    let mut dtypes = Vec::new(alloc);
    for partition in partitions {
        dtypes.push(partition.dtype.clone()?)?;
    }
    Ok(dtypes)
}

/// The annotations of the partitions.
fn annotations_of<A: Annotation>(alloc: Global, partitions: &[Partition<A>]) -> Mem<Vec<A>>
    ensures { IfOk result (λ annotations. annotations.items ≡ map (λ p. p.annotation) (map partition_view partitions.now)) }
{
    let mut annotations = Vec::new(alloc);
    for partition in partitions {
        annotations.push(partition.annotation.clone()?)?;
    }
    Ok(annotations)
}
