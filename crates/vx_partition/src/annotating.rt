// The annotations of an expression and of those below it: a fold that visits each expression, down and up.
ghost use Rattle.std.specs.Prelude.{◌≡◌, [], ◌∷◌, not, Some, IfOk, OnOk};
ghost use Rattle.std.specs.List.{flat_map, list_all, slice_get};
ghost use Rattle.vx_expr.specs.PostOrders.{post_order};
ghost use Rattle.vx_expr.specs.Trees.{children_of};
ghost use Rattle.vx_passes.specs.Annotating.{annotated, annotated_up, with_annotations};
ghost use Rattle.vx_partition.specs.Entries.{held_at, IsSound, Extends, numbered_entries};
ghost use Rattle.vx_partition.specs.Numbering.{known, AreNumbersOf};
ghost use Rattle.vx_partition.specs.Views.{entries_view};
ghost use Rattle.vx_partition.specs.Visits.{has_none, HasVisited, HasVisitedBelow};

use crate::annotation::{Annotation, AnnotationFn};
use crate::annotations::Annotations;
use crate::numbered::NumberedAnnotations;
use std::alloc::Global;
use vx_dtype::Mem;
use vx_expr::ExprRef;
use vx_traversal::{FoldSteps, NodeExt};

/// The annotations of an expression and of those below it, by a visit down and up. On the way down an expression that the rule gives
/// annotations itself gets these, and what stands below it is skipped. On the way up, also after a skip, each visited expression gets
/// what the entries of its children hold at that moment. Each visited expression has an entry, which may be empty, and no other has.
/// Refuses only where memory runs out. At the end each entry's expression is hashed whole, as a map keyed by expressions asks:
/// [`crate::partition`] goes without.
pub fn descendent_annotations<F: AnnotationFn>(
    alloc: Global,
    expr: &ExprRef,
    annotate: &F,
) -> Mem<Annotations<F::Annotation>>
    ensures { IfOk result (λ found. entries_view found ≡ annotated F.Annotation.eq (F.annotated annotate.now) expr.now) }
{
    let (found, _number) = numbered_annotations(alloc, expr, annotate)?;
    Annotations::of_numbered(alloc, found)
}

/// The annotations of an expression and of those below it, and the expression's number.
pub(crate) fn numbered_annotations<F: AnnotationFn>(
    alloc: Global,
    expr: &ExprRef,
    annotate: &F,
) -> Mem<(NumberedAnnotations<F::Annotation>, usize)>
    ensures entries { IfOk result (λ made. numbered_entries made.0 ≡ annotated F.Annotation.eq (F.annotated annotate.now) expr.now) }
    ensures sound { IfOk result (λ made. IsSound made.0) }
    ensures number { IfOk result (λ made. slice_get (known made.0.numbers) made.1 ≡ Some expr.now) }
{
    let mut visit = Visit {
        rule: annotate,
        found: NumberedAnnotations::new(alloc),
    };
    let number = expr.fold_by(alloc, &mut visit)?;
    let Visit { rule: _rule, found } = visit;
    Ok((found, number))
}

/// Whether the rule gives annotations to some node of an expression.
pub(crate) fn is_touched<F: AnnotationFn>(alloc: Global, expr: &ExprRef, annotate: &F) -> Mem<bool>
    ensures { IfOk result (λ touched. touched ≡ not (list_all (has_none (F.annotated annotate.now)) (post_order expr.now))) }
{
    let nodes = expr.post_order(alloc)?;
    for &node in nodes.as_slice() {
        let own = annotate.annotate(alloc, node)?;
        if !own.is_empty() {
            return Ok(true);
        }
    }
    Ok(false)
}

/// A visit of expressions: the rule that annotates them, and the annotations so far.
#[derive(Drop)]
pub(crate) struct Visit<'a, F: AnnotationFn> {
    rule: &'a F,
    found: NumberedAnnotations<F::Annotation>,
}

/// A fold that gives each visited expression its number. Where the rule gives it annotations itself, what stands below it is skipped.
impl<F: AnnotationFn> FoldSteps for Visit<'_, F> {
    type NodeTy = ExprRef;

    type Result = usize;

    ghost ready = { λ visit _. IsSound visit.found };

    ghost folds = { λ old expr number new. HasVisited F.Annotation.eq F.annotated old (expr ∷ []) (number ∷ []) new };

    ghost gathers = { HasVisitedBelow F.Annotation.eq F.annotated };

    fn down(&mut self, alloc: Global, node: &ExprRef) -> Mem<Option<usize>> {
        let own = self.rule.annotate(alloc, node)?;
        if own.is_empty() {
            return Ok(None);
        }
        let number = visit_alone(alloc, node, own.as_slice(), &mut self.found)?;
        Ok(Some(number))
    }

    fn up(&mut self, alloc: Global, node: &ExprRef, results: &[usize]) -> Mem<usize> {
        let number = visit_over(alloc, node, results, &mut self.found)?;
        Ok(number)
    }
}

/// Visits an expression which has these annotations itself. Gives its number.
fn visit_alone<A: Annotation>(
    alloc: Global,
    expr: &ExprRef,
    own: &[A],
    found: &mut NumberedAnnotations<A>,
) -> Mem<usize>
    requires { IsSound found.old }
    ensures entries { OnOk result (numbered_entries found.new ≡ annotated_up A.eq expr.now (with_annotations A.eq expr.now own.now (numbered_entries found.old))) }
    ensures extended { OnOk result (Extends found.old found.new) }
    ensures number { IfOk result (λ number. slice_get (known found.new.numbers) number ≡ Some expr.now) }
{
    let number = found.number_whole(alloc, expr)?;
    found.add(alloc, expr, number, own)?;
    visit_up(alloc, expr, number, found)?;
    Ok(number)
}

/// Visits an expression whose children were visited and have these numbers. Gives its number.
fn visit_over<A: Annotation>(
    alloc: Global,
    expr: &ExprRef,
    below: &[usize],
    found: &mut NumberedAnnotations<A>,
) -> Mem<usize>
    requires sound { IsSound found.old }
    requires below { AreNumbersOf (known found.old.numbers) below.now (children_of expr.now) }
    ensures entries { OnOk result (numbered_entries found.new ≡ annotated_up A.eq expr.now (numbered_entries found.old)) }
    ensures extended { OnOk result (Extends found.old found.new) }
    ensures number { IfOk result (λ number. slice_get (known found.new.numbers) number ≡ Some expr.now) }
{
    let number = found.number(alloc, expr, below)?;
    visit_up(alloc, expr, number, found)?;
    Ok(number)
}

/// The way up: the expression, which has this number, gets what the entries of its children hold.
fn visit_up<A: Annotation>(
    alloc: Global,
    expr: &ExprRef,
    number: usize,
    found: &mut NumberedAnnotations<A>,
) -> Mem<()>
    requires sound { IsSound found.old }
    requires number { slice_get (known found.old.numbers) number ≡ Some expr.now }
    ensures entries { OnOk result (numbered_entries found.new ≡ annotated_up A.eq expr.now (numbered_entries found.old)) }
    ensures extended { OnOk result (Extends found.old found.new) }
{
    let below = held_by(alloc, found.numbers.below(number), found)?;
    found.add(alloc, expr, number, below.as_slice())
}

/// What the entries at these numbers hold, in the order of the numbers.
fn held_by<A: Annotation>(
    alloc: Global,
    numbers: &[usize],
    found: &NumberedAnnotations<A>,
) -> Mem<Vec<A>>
    ensures { IfOk result (λ held. held.items ≡ flat_map (λ n. held_at n found.now.entries.entries) numbers.now) }
{
    let mut held = Vec::new(alloc);
    for number in numbers {
        found.push_held(*number, &mut held)?;
    }
    Ok(held)
}
