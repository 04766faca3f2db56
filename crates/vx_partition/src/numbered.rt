// The annotations of expressions under the numbers of these.
ghost use Rattle.std.specs.Prelude.{◌≡◌, [], ◌++◌, Some, IfOk, OnOk, option_map, unwrap_or};
ghost use Rattle.std.specs.List.{list_any, slice_get};
ghost use Rattle.vx_expr.specs.Trees.{children_of};
ghost use Rattle.vx_passes.specs.Annotating.{joined_sets, with_annotations};
ghost use Rattle.vx_partition.specs.Entries.{held_at, HasAnnotations, IsSound, Extends, numbered_entries};
ghost use Rattle.vx_partition.specs.Numbering.{known, AreNumbersOf};
ghost use Rattle.vx_partition.specs.Views.{has_entry};

use crate::annotation::Annotation;
use crate::numbers::Numbers;
use indexmap::IndexMap;
use std::alloc::Global;
use std::collections::HashSet;
use vx_dtype::Mem;
use vx_expr::ExprRef;

/// How many annotations are few: so many are sooner compared one by one than looked up by their hash.
const FEW_ANNOTATIONS: usize = 16;

/// An expression and the set of its annotations.
#[derive(Debug, Drop)]
pub(crate) struct Annotated<A> {
    pub(crate) expr: ExprRef,
    pub(crate) annotations: Vec<A>,
}

/// Expressions and the set of annotations of each, in the order in which they came. Equal expressions share an entry, which stands under
/// their number, so that no expression is hashed or compared whole while they are found.
#[derive(Debug, Drop)]
pub(crate) struct NumberedAnnotations<A> {
    pub(crate) numbers: Numbers,
    pub(crate) entries: IndexMap<usize, Annotated<A>>,
}

impl<A: Annotation> NumberedAnnotations<A> {
    /// Without any entry.
    pub(crate) fn new(alloc: Global) -> NumberedAnnotations<A>
        ensures empty { numbered_entries result ≡ [] }
        ensures sound { IsSound result }
    {
        NumberedAnnotations {
            numbers: Numbers::new(alloc),
            entries: IndexMap::new(alloc),
        }
    }

    /// The number of an expression whose children have these numbers; a new one where it has none.
    pub(crate) fn number(&mut self, alloc: Global, expr: &ExprRef, below: &[usize]) -> Mem<usize>
        requires sound { IsSound self.old }
        requires below { AreNumbersOf (known self.old.numbers) below.now (children_of expr.now) }
        ensures entries { OnOk result (numbered_entries self.new ≡ numbered_entries self.old) }
        ensures extended { OnOk result (Extends self.old self.new) }
        ensures number { IfOk result (λ number. slice_get (known self.new.numbers) number ≡ Some expr.now) }
    {
        self.numbers.number(alloc, expr, below)
    }

    /// The number of an expression, after those that stand below it have got theirs.
    pub(crate) fn number_whole(&mut self, alloc: Global, expr: &ExprRef) -> Mem<usize>
        requires { IsSound self.old }
        ensures entries { OnOk result (numbered_entries self.new ≡ numbered_entries self.old) }
        ensures extended { OnOk result (Extends self.old self.new) }
        ensures number { IfOk result (λ number. slice_get (known self.new.numbers) number ≡ Some expr.now) }
    {
        self.numbers.number_whole(alloc, expr)
    }

    /// The annotations of the entry at a number; None where there is no entry.
    pub(crate) fn held(&self, number: usize) -> Option<&[A]>
        ensures { unwrap_or (option_map (λ held. held.now) result) [] ≡ held_at number self.now.entries.entries }
    {
        match self.entries.get(&number) {
            Some(entry) => Some(entry.annotations.as_slice()),
            None => None,
        }
    }

    /// Puts the annotations of the entry at a number at the end of a list.
    pub(crate) fn push_held(&self, number: usize, list: &mut Vec<A>) -> Mem<()>
        ensures { OnOk result (list.new.items ≡ list.old.items ++ held_at number self.now.entries.entries) }
    {
        match self.held(number) {
            Some(held) => push_clones(list, held),
            None => Ok(()),
        }
    }

    /// Gives the entry of an expression, which has this number, these annotations too; makes the entry where there is none.
    pub(crate) fn add(
        &mut self,
        alloc: Global,
        expr: &ExprRef,
        number: usize,
        more: &[A],
    ) -> Mem<()>
        requires sound { IsSound self.old }
        requires number { slice_get (known self.old.numbers) number ≡ Some expr.now }
        ensures entries { OnOk result (numbered_entries self.new ≡ with_annotations A.eq expr.now more.now (numbered_entries self.old)) }
        ensures extended { OnOk result (Extends self.old self.new) }
    {
        let mut annotations = Vec::new(alloc);
        self.push_held(number, &mut annotations)?;
        join(alloc, &mut annotations, more)?;
        let entry = Annotated {
            expr: expr.clone()?,
            annotations,
        };
        self.entries.insert(number, entry)?;
        Ok(())
    }
}

/// Puts clones of annotations at the end of a list.
pub(crate) fn push_clones<A: Annotation>(list: &mut Vec<A>, more: &[A]) -> Mem<()>
    ensures { OnOk result (list.new.items ≡ list.old.items ++ more.now) }
{
    for annotation in more {
        list.push(annotation.clone()?)?;
    }
    Ok(())
}

/// Whether an annotation equals one of these.
pub(crate) fn is_among<A: Annotation>(annotation: &A, held: &[A]) -> bool
    ensures { result ≡ list_any (A.eq annotation.now) held.now }
{
    held.iter().any(|other| annotation == other)
}

/// Puts annotations at the end of a set, but for those that it has. Where they are many, those that the set has are looked up by their hash.
fn join<A: Annotation>(alloc: Global, set: &mut Vec<A>, more: &[A]) -> Mem<()>
    ensures { OnOk result (set.new.items ≡ joined_sets A.eq set.old.items more.now) }
{
    if more.len() <= FEW_ANNOTATIONS {
        return join_few(set, more);
    }
    let known = known_of(alloc, set.as_slice())?;
    join_unknown(set, known, more)
}

/// The same, where each is compared with all that the set has.
fn join_few<A: Annotation>(set: &mut Vec<A>, more: &[A]) -> Mem<()>
    ensures { OnOk result (set.new.items ≡ joined_sets A.eq set.old.items more.now) }
{
    for annotation in more {
        if is_among(annotation, set.as_slice()) {
            continue;
        }
        set.push(annotation.clone()?)?;
    }
    Ok(())
}

/// Annotations by their hash.
fn known_of<A: Annotation>(alloc: Global, annotations: &[A]) -> Mem<HashSet<A>>
    ensures { IfOk result (HasAnnotations A.eq annotations.now) }
{
    let mut known = HashSet::new(alloc);
    for annotation in annotations {
        known.insert(annotation.clone()?)?;
    }
    Ok(known)
}

/// The same as `join`, where those that the set has are known by their hash.
fn join_unknown<A: Annotation>(set: &mut Vec<A>, mut known: HashSet<A>, more: &[A]) -> Mem<()>
    requires { HasAnnotations A.eq set.old.items known }
    ensures { OnOk result (set.new.items ≡ joined_sets A.eq set.old.items more.now) }
{
    for annotation in more {
        if !known.insert(annotation.clone()?)? {
            continue;
        }
        set.push(annotation.clone()?)?;
    }
    Ok(())
}
