// Taking parts out of an expression: a fold that looks at each node from the root down, from left to right. What stands below a part isn't
// looked at.
ghost use Rattle.std.specs.Prelude.{◌≡◌, [], ◌++◌, Some, IfOk, OnOk, option_copied, reverse};
ghost use Rattle.std.specs.List.{slice_get};
ghost use Rattle.vx_expr.specs.Children.{one_of};
ghost use Rattle.vx_passes.specs.Splitting.{taken_from};
ghost use Rattle.vx_transform.specs.Rebuilds.{or_same};
ghost use Rattle.vx_partition.specs.Entries.{held_at, IsSound, numbered_entries};
ghost use Rattle.vx_partition.specs.Numbering.{known};
ghost use Rattle.vx_partition.specs.Views.{shares_view};
ghost use Rattle.vx_partition.specs.Takings.{taken_as, IsNext, Takes, TakesBelow};

use crate::annotation::Annotation;
use crate::numbered::NumberedAnnotations;
use crate::shares::Shares;
use std::alloc::Global;
use vx_dtype::Mem;
use vx_expr::ExprRef;
use vx_transform::with_made;
use vx_traversal::{FoldSteps, NodeExt};

/// Takes parts out of an expression, which has this number. What stands in its place, None where it stays, and the parts.
pub(crate) fn take<A: Annotation>(
    alloc: Global,
    expr: &ExprRef,
    number: usize,
    found: &NumberedAnnotations<A>,
) -> Mem<(Option<ExprRef>, Shares<A>)>
    requires sound { IsSound found.now }
    requires number { slice_get (known found.now.numbers) number ≡ Some expr.now }
    ensures { let whole = taken_from A.eq A.text (numbered_entries found.now) expr.now [] in
        IfOk result (λ made. whole ≡ taken_as (or_same expr.now made.0) (shares_view made.1)) }
{
    let mut next = Vec::new(alloc);
    next.push(number)?;
    let mut taking = Taking {
        found,
        next,
        shares: Shares::new(alloc),
    };
    let made = expr.fold_by(alloc, &mut taking)?;
    let Taking {
        found: _found,
        next: _next,
        shares,
    } = taking;
    Ok((made, shares))
}

/// Parts that are taken out of an expression: the entries, the numbers of the nodes that are looked at next, the first of them last, and
/// the parts so far.
#[derive(Drop)]
pub(crate) struct Taking<'a, A: Annotation> {
    found: &'a NumberedAnnotations<A>,
    next: Vec<usize>,
    shares: Shares<A>,
}

/// A fold that gives what stands in the place of each node, None where the node stays.
impl<A: Annotation> FoldSteps for Taking<'_, A> {
    type NodeTy = ExprRef;

    type Result = Option<ExprRef>;

    ghost ready = { IsNext };

    ghost folds = { Takes A.eq A.text };

    ghost gathers = { TakesBelow A.eq A.text };

    fn down(&mut self, alloc: Global, node: &ExprRef) -> Mem<Option<Option<ExprRef>>> {
        let Some(number) = self.next.pop() else {
            unreachable!()
        };
        match only_annotation(self.found, number) {
            Some(annotation) => {
                let part = self.shares.take(alloc, annotation, node.clone()?)?;
                Ok(Some(Some(part)))
            }
            None => {
                push_reversed(&mut self.next, self.found.numbers.below(number))?;
                Ok(None)
            }
        }
    }

    fn up(
        &mut self,
        alloc: Global,
        node: &ExprRef,
        results: &[Option<ExprRef>],
    ) -> Mem<Option<ExprRef>> {
        let made = with_made(alloc, node, results)?;
        Ok(made)
    }
}

/// The annotation of the entry at a number, where the entry has exactly one.
fn only_annotation<A: Annotation>(found: &NumberedAnnotations<A>, number: usize) -> Option<&A>
    ensures { option_copied result ≡ one_of (held_at number found.now.entries.entries) }
{
    match found.held(number) {
        Some([annotation]) => Some(annotation),
        _ => None,
    }
}

/// Puts numbers at the end of a list, the first of them last.
fn push_reversed(list: &mut Vec<usize>, numbers: &[usize]) -> Mem<()>
    ensures { OnOk result (reverse list.new.items ≡ numbers.now ++ reverse list.old.items) }
{
    let mut left = numbers.len();
    while left > 0 {
        left -= 1;
        list.push(numbers[left])?;
    }
    Ok(())
}
