// The annotations of expressions, as a map keyed by equal expressions.
ghost use Rattle.std.specs.Prelude.{◌≡◌, [], length, IfOk, option_map, unwrap_or, is_some};
ghost use Rattle.std.specs.List.{slice_get};
ghost use Rattle.vx_passes.specs.Annotating.{entry_of};
ghost use Rattle.vx_partition.specs.Entries.{IsSound, numbered_entries};
ghost use Rattle.vx_partition.specs.Views.{entries_view, entry_view, has_entry};

use crate::annotation::Annotation;
use crate::numbered::{Annotated, NumberedAnnotations};
use indexmap::IndexMap;
use std::alloc::Global;
use vx_dtype::Mem;
use vx_expr::ExprRef;

/// Expressions and the set of annotations of each, in the order in which they came. Equal expressions share an entry, which is looked up
/// by the expression's hash and equality.
#[derive(Debug, Drop)]
pub struct Annotations<A> {
    entries: IndexMap<ExprRef, Vec<A>>,
}

impl<A: Annotation> Annotations<A> {
    /// The entries that stood under numbers, under their expressions. Each expression is hashed whole, so that this takes time in
    /// proportion to all their sizes.
    pub(crate) fn of_numbered(alloc: Global, found: NumberedAnnotations<A>) -> Mem<Annotations<A>>
        requires { IsSound found }
        ensures { IfOk result (λ made. entries_view made ≡ numbered_entries found) }
    {
        let NumberedAnnotations {
            numbers: _numbers,
            entries: numbered,
        } = found;
        let mut entries = IndexMap::new(alloc);
        for (_, annotated) in numbered {
            let Annotated { expr, annotations } = annotated;
            entries.insert(expr, annotations)?;
        }
        Ok(Annotations { entries })
    }

    /// How many expressions have an entry.
    pub fn len(&self) -> usize
        ensures { result ≡ length (entries_view self.now) }
    {
        self.entries.len()
    }

    /// The expression of the entry at this place, counted from 0 in the order in which the entries came, and its annotations; None past
    /// the last one.
    pub fn entry(&self, place: usize) -> Option<(&ExprRef, &[A])>
        ensures { option_map (λ e. entry_view e.0.now e.1.now) result ≡ slice_get (entries_view self.now) place }
    {
        match self.entries.get_index(place) {
            Some((expr, annotations)) => Some((expr, annotations.as_slice())),
            None => None,
        }
    }

    /// Whether an expression has an entry, which may be empty.
    pub fn contains(&self, expr: &ExprRef) -> bool
        ensures { result ≡ has_entry expr.now (entries_view self.now) }
    {
        self.get(expr).is_some()
    }

    /// The annotations of the entry of an expression; None where it has no entry. Takes time in proportion to the expression.
    pub fn get(&self, expr: &ExprRef) -> Option<&[A]>
        ensures held { unwrap_or (option_map (λ held. held.now) result) [] ≡ entry_of expr.now (entries_view self.now) }
        ensures known { is_some result ≡ has_entry expr.now (entries_view self.now) }
    {
        match self.entries.get(expr) {
            Some(annotations) => Some(annotations.as_slice()),
            None => None,
        }
    }
}
