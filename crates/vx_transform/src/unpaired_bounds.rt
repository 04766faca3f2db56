// The bounds among the conjuncts so far that are in no range yet.
ghost use Rattle.std.specs.Prelude.{◌≡◌, [], cond, not, ◌&&◌, slice_get, OnOk};
ghost use Rattle.vx_expr.specs.Equal.{tree_eq};
ghost use Rattle.vx_expr.specs.Trees.{Tree};
ghost use Rattle.vx_transform.specs.CodeViews.{reading_view, places_at, Waits};
ghost use Rattle.vx_transform.specs.Pairs.{is_from_below, rest_where, added_where};

use crate::range_bounds::Reading;
use std::alloc::Global;
use std::collections::{HashMap, VecDeque};
use vx_dtype::Mem;
use vx_expr::ExprRef;

/// Places of bounds by the operand that they bound, those of one operand in order.
#[derive(Drop)]
struct Places {
    by_operand: HashMap<ExprRef, VecDeque<usize>>,
}

impl Places {
    /// No places.
    fn new(alloc: Global) -> Places
        ensures { (e : Tree) → places_at result e ≡ [] }
    {
        Places {
            by_operand: HashMap::new(alloc),
        }
    }

    /// Takes out the first place of an operand.
    #[tactic(auto, using(vx_expr::specs::EqualLaws::tree_decides))]
    fn take_first(&mut self, operand: &ExprRef) -> Option<usize>
        ensures first { result ≡ slice_get (places_at self.old operand.now) 0 }
        ensures others { (e : Tree) → places_at self.new e ≡ rest_where (tree_eq operand.now e) (places_at self.old e) }
    {
        match self.by_operand.get_mut(operand) {
            Some(places) => places.pop_front(),
            None => None,
        }
    }

    /// Puts a place behind the others of an operand.
    #[tactic(auto, using(vx_expr::specs::EqualLaws::tree_decides))]
    fn add(&mut self, alloc: Global, operand: &ExprRef, place: usize) -> Mem<()>
        ensures { OnOk result ((e : Tree) → places_at self.new e ≡ added_where (tree_eq operand.now e) place (places_at self.old e)) }
    {
        if let Some(places) = self.by_operand.get_mut(operand) {
            places.push_back(place)?;
            return Ok(());
        }
        let mut places = VecDeque::new(alloc);
        places.push_back(place)?;
        self.by_operand.insert(operand.clone()?, places)?;
        Ok(())
    }
}

/// The places of the bounds that are in no range yet, from below and from above.
#[derive(Drop)]
pub(crate) struct Waiting {
    below: Places,
    above: Places,
}

impl Waiting {
    /// Before the first conjunct.
    pub(crate) fn new(alloc: Global) -> Waiting
        ensures { Waits result [] }
    {
        Waiting {
            below: Places::new(alloc),
            above: Places::new(alloc),
        }
    }

    /// Takes out the place of the first bound of the same operand from the other side.
    pub(crate) fn take_first(&mut self, bound: &Reading<'_>) -> Option<usize>
        ensures first { let b = reading_view bound.now in
            result ≡ slice_get (cond (is_from_below b) (places_at self.old.above b.operand) (places_at self.old.below b.operand)) 0 }
        ensures below { let b = reading_view bound.now in
            (e : Tree) → places_at self.new.below e ≡ rest_where (not (is_from_below b) && tree_eq b.operand e) (places_at self.old.below e) }
        ensures above { let b = reading_view bound.now in
            (e : Tree) → places_at self.new.above e ≡ rest_where (is_from_below b && tree_eq b.operand e) (places_at self.old.above e) }
    {
        if bound.is_from_below() {
            return self.above.take_first(bound.operand());
        }
        self.below.take_first(bound.operand())
    }

    /// Lets a bound wait that stands at this place.
    pub(crate) fn add(&mut self, alloc: Global, bound: &Reading<'_>, place: usize) -> Mem<()>
        ensures below { let b = reading_view bound.now in
            OnOk result ((e : Tree) → places_at self.new.below e ≡ added_where (is_from_below b && tree_eq b.operand e) place (places_at self.old.below e)) }
        ensures above { let b = reading_view bound.now in
            OnOk result ((e : Tree) → places_at self.new.above e ≡ added_where (not (is_from_below b) && tree_eq b.operand e) place (places_at self.old.above e)) }
    {
        if bound.is_from_below() {
            return self.below.add(alloc, bound.operand(), place);
        }
        self.above.add(alloc, bound.operand(), place)
    }
}
