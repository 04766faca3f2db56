// The expressions that became parts, by annotation, and what stands for a part.
ghost use Rattle.std.specs.Prelude.{◌≡◌, [], ◌<◌, length, Some, IfOk, OnOk};
ghost use Rattle.std.specs.List.{slice_get};
ghost use Rattle.vx_passes.specs.Splitting.{part_access, part_name, parts_count, with_part};
ghost use Rattle.vx_partition.specs.Views.{share_view, shares_view};

use crate::annotation::Annotation;
use indexmap::IndexMap;
use std::alloc::Global;
use vx_build::{col, get_item};
use vx_dtype::{FieldName, Mem};
use vx_expr::ExprRef;

/// The parts of each annotation, in order of first use.
#[derive(Drop)]
pub(crate) struct Shares<A: Annotation> {
    parts: IndexMap<A, Vec<ExprRef>>,
}

impl<A: Annotation> Shares<A> {
    /// Without any part.
    pub(crate) fn new(alloc: Global) -> Shares<A>
        ensures { shares_view result ≡ [] }
    {
        Shares {
            parts: IndexMap::new(alloc),
        }
    }

    /// How many annotations have parts.
    pub(crate) fn len(&self) -> usize
        ensures { result ≡ length (shares_view self.now) }
    {
        self.parts.len()
    }

    /// The annotation at this place, counted from 0, and its parts.
    pub(crate) fn at(&self, place: usize) -> (&A, &[ExprRef])
        requires { place < length (shares_view self.now) }
        ensures { slice_get (shares_view self.now) place ≡ Some (share_view (result.0.now, result.1.now)) }
    {
        match self.parts.get_index(place) {
            Some((annotation, parts)) => (annotation, parts.as_slice()),
            None => unreachable!(),
        }
    }

    /// How many parts an annotation has so far.
    fn count(&self, annotation: &A) -> usize
        ensures { result ≡ parts_count A.eq annotation.now (shares_view self.now) }
    {
        match self.parts.get(annotation) {
            Some(parts) => parts.as_slice().len(),
            None => 0,
        }
    }

    /// Takes an expression as one more part of an annotation. The parts so far leave the entry, which keeps its place, and come back.
    fn add(&mut self, alloc: Global, annotation: &A, part: ExprRef) -> Mem<()>
        ensures { OnOk result (shares_view self.new ≡ with_part A.eq annotation.now part (shares_view self.old)) }
    {
        let so_far = self.parts.insert(annotation.clone()?, Vec::new(alloc))?;
        let mut parts = so_far.unwrap_or(Vec::new(alloc));
        parts.push(part)?;
        self.parts.insert(annotation.clone()?, parts)?;
        Ok(())
    }

    /// Takes an expression as the next part of an annotation, and gives what stands in the expression's place.
    pub(crate) fn take(&mut self, alloc: Global, annotation: &A, part: ExprRef) -> Mem<ExprRef>
        ensures access { IfOk result (λ made. made ≡ part_access (A.text annotation.now) (parts_count A.eq annotation.now (shares_view self.old))) }
        ensures shares { OnOk result (shares_view self.new ≡ with_part A.eq annotation.now part (shares_view self.old)) }
    {
        let number = self.count(annotation);
        self.add(alloc, annotation, part)?;
        part_access(alloc, annotation, number)
    }
}

/// The text of an annotation, as a name.
pub(crate) fn text_name<A: Annotation>(alloc: Global, annotation: &A) -> Mem<FieldName>
    ensures { IfOk result (λ name. name ≡ A.text annotation.now) }
{
    FieldName::new(alloc, format!(in alloc; "{annotation}")?.as_str())
}

/// The name of the part with this number, counted from 0, of an annotation.
pub(crate) fn part_name<A: Annotation>(
    alloc: Global,
    annotation: &A,
    number: usize,
) -> Mem<FieldName>
    ensures { IfOk result (λ name. name ≡ part_name (A.text annotation.now) number) }
{
    FieldName::new(alloc, format!(in alloc; "{annotation}_{number}")?.as_str())
}

/// What stands for a part: its field of the field of its annotation.
fn part_access<A: Annotation>(alloc: Global, annotation: &A, number: usize) -> Mem<ExprRef>
    ensures { IfOk result (λ made. made ≡ part_access (A.text annotation.now) number) }
{
    let parts = col(alloc, text_name(alloc, annotation)?)?;
    get_item(alloc, part_name(alloc, annotation, number)?, parts)
}
