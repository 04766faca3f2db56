// Numbers of one width, and those of them that are null.
ghost use Rattle.std.specs.Prelude.{◌≡◌, ℕ, ◌+◌, ◌*◌, ◌<◌, ◌≤◌, ◌^◌, true, Option, Some, None, [], ◌∷◌, ◌++◌, length, map, replicate, slice_index_or, is_some, is_none, cond, IfOk, Decides};
ghost use Rattle.std.specs.List.{filter};
ghost use Rattle.std.specs.Option.{option_map};
ghost use Rattle.std.specs.Simd.Lanes.{zip2};
ghost use Rattle.vx_words.specs.Truths.{hidden_if, kept_items};
ghost use Rattle.vx_numbers.specs.Numbers.{all_in_range, fits_ptype, compared, null_test, on_both, total_in, if_in_range};
ghost use Rattle.vx_numbers.specs.NumbersEqual.{number_eq};
ghost use Rattle.vx_numbers.specs.Bounds.{least_number, greatest_number};
ghost use Rattle.vx_numbers.specs.Lanes.{numbers_of, number_in, number_of, AreTidyNumbers};

use crate::bounds::{known_bounds, value_bounds};
use crate::kernels::{words, words_with};
use crate::operators::Operator;
use crate::totals::{Total, total_of};
use crate::width::Width;
use std::alloc::{AllocError, Global};
use std::marker::Model;
use std::rc::Rc;
use vx_dtype::Mem;
use vx_words::{PLACES, Truths, bit, bit_count, both, push_bit, repeated_bit, without};

/// Numbers of one width, null at some places. The values are shared by clones and by lists that differ in their nulls alone.
#[derive(Debug, Drop)]
pub(crate) struct Lane<T: Width> {
    valid: Vec<u64>,
    values: Rc<Vec<T>>,
}

impl<T: Width> Model for Lane<T> {
    ghost use Rattle.std.specs.Prelude.{ℤ, Option, List, map};
    ghost use Rattle.vx_numbers.specs.Lanes.{numbers_of, AreTidyNumbers};

    ghost Value = { List (Option ℤ) };

    ghost view = { λ lane. numbers_of lane.valid.items (map T.value lane.values.value.items) };

    ghost invariant = { λ lane. AreTidyNumbers lane.valid.items (map T.value lane.values.value.items) };
}

impl<T: Width> Lane<T> {
    /// The list of these numbers.
    pub(crate) fn from_options(alloc: Global, numbers: &[Option<i128>]) -> Mem<Lane<T>>
        requires { all_in_range T.ptype numbers.now ≡ true }
        ensures { IfOk result (λ lane. lane ≡ numbers.now) }
    {
        let mut valid = Vec::with_capacity(alloc, numbers.len().div_ceil(PLACES))?;
        let mut values = Vec::with_capacity(alloc, numbers.len())?;
        for i in 0..numbers.len() {
            push(&mut valid, &mut values, of_number::<T>(numbers[i]))?;
        }
        let lane = Lane::of_values(alloc, valid, values)?;
        Ok(lane)
    }

    /// The list of one number, or of null, this many times.
    pub(crate) fn repeated(alloc: Global, number: Option<i128>, len: usize) -> Mem<Lane<T>>
        requires { fits_ptype T.ptype number ≡ true }
        ensures { IfOk result (λ lane. lane ≡ replicate len number) }
    {
        let number = of_number::<T>(number);
        let valid = repeated_bit(alloc, number.is_some(), len)?;
        let values = repeated_value(alloc, value_of(number), len)?;
        let lane = Lane::of_values(alloc, valid, values)?;
        Ok(lane)
    }

    /// The list of these words of validity and these values.
    fn of_values(alloc: Global, valid: Vec<u64>, values: Vec<T>) -> Mem<Lane<T>>
        requires { AreTidyNumbers valid.items (map T.value values.items) }
        ensures { IfOk result (λ lane. lane ≡ numbers_of valid.items (map T.value values.items)) }
    {
        let values = Rc::new(alloc, values)?;
        Ok(Lane { valid, values })
    }

    /// The words of validity and the values.
    fn parts(&self) -> (&[u64], &[T])
        ensures numbers { numbers_of result.0.now (map T.value result.1.now) ≡ self.now }
        ensures tidy { AreTidyNumbers result.0.now (map T.value result.1.now) }
    {
        (self.valid.as_slice(), self.values.as_slice())
    }

    /// How many places there are.
    pub(crate) fn len(&self) -> usize
        ensures { result ≡ length self.now }
    {
        self.values.len()
    }

    /// The number at a place, counted from 0.
    pub(crate) fn number_at(&self, i: usize) -> Option<i128>
        requires { i < length self.now }
        ensures { result ≡ slice_index_or self.now i None }
    {
        let (valid, values) = self.parts();
        if !bit(valid, i) {
            return None;
        }
        Some(values[i].number())
    }

    /// The comparison of each number with the one at its place in the other list; null where one is null.
    pub(crate) fn compare<O: Operator>(&self, alloc: Global, other: &Lane<T>) -> Mem<Truths>
        requires { length other.now ≡ length self.now }
        ensures { IfOk result (λ truths. truths ≡ zip2 (compared O.operator) self.now other.now) }
    {
        let (left, ls) = self.parts();
        let (right, rs) = other.parts();
        let valid = both(alloc, left, right)?;
        let truths = words::<T, O>(alloc, valid.as_slice(), ls, rs)?;
        Ok(Truths::of_words(ls.len(), valid, truths))
    }

    /// The comparison of each number with this one; null where one is null.
    pub(crate) fn compare_with<O: Operator>(
        &self,
        alloc: Global,
        number: Option<i128>,
    ) -> Mem<Truths>
        requires { fits_ptype T.ptype number ≡ true }
        ensures { IfOk result (λ truths. truths ≡ map (λ n. compared O.operator n number) self.now) }
    {
        let Some(number) = number else {
            return Truths::repeated(alloc, None, self.len());
        };
        let (valid, values) = self.parts();
        let truths = words_with::<T, O>(alloc, valid, values, T::of_number(number))?;
        let valid = Vec::from_slice(alloc, valid)?;
        Ok(Truths::of_words(values.len(), valid, truths))
    }

    /// Whether there is no number, place by place.
    pub(crate) fn is_null(&self, alloc: Global) -> Mem<Truths>
        ensures { IfOk result (λ truths. truths ≡ map null_test self.now) }
    {
        let (valid, values) = self.parts();
        let words = Vec::from_slice(alloc, valid)?;
        let known = Truths::of_words(values.len(), Vec::from_slice(alloc, valid)?, words);
        let nulls = known.is_null(alloc)?;
        Ok(nulls)
    }

    /// The numbers at the places where the other list is true, in order.
    pub(crate) fn filter(&self, alloc: Global, keep: &Truths) -> Mem<Lane<T>>
        requires { length keep.now ≡ length self.now }
        ensures { IfOk result (λ lane. lane ≡ kept_items self.now keep.now) }
    {
        let (_, numbers) = self.parts();
        let values = keep.kept(alloc, numbers)?;
        let valid = repeated_bit(alloc, true, values.len())?;
        let kept = Lane::of_values(alloc, valid, values)?;
        let nulls = self.is_null(alloc)?;
        if nulls.true_count() == 0 {
            return Ok(kept);
        }
        let hidden = nulls.filter(alloc, keep)?;
        let lane = kept.mask(alloc, &hidden)?;
        Ok(lane)
    }

    /// The total of each number and the one at its place in the other list; null where one is null. None exactly where a total leaves the type.
    pub(crate) fn totals<O: Total>(&self, alloc: Global, other: &Lane<T>) -> Mem<Option<Lane<T>>>
        requires { length other.now ≡ length self.now }
        ensures { IfOk result (λ lane. lane ≡ if_in_range T.ptype (zip2 (on_both O.rule) self.now other.now)) }
    {
        let mut valid = Vec::with_capacity(alloc, self.valid.len())?;
        let mut values = Vec::with_capacity(alloc, self.len())?;
        'places: for i in 0..self.len() {
            let Some(total) = total_of::<T, O>(self.value_at(i), other.value_at(i)) else {
                return Ok(None);
            };
            push(&mut valid, &mut values, total)?;
        }
        let lane = Lane::of_values(alloc, valid, values)?;
        Ok(Some(lane))
    }

    /// The numbers, null where the other list is true.
    pub(crate) fn mask(&self, alloc: Global, nulls: &Truths) -> Mem<Lane<T>>
        requires { length nulls.now ≡ length self.now }
        ensures { IfOk result (λ lane. lane ≡ zip2 hidden_if self.now nulls.now) }
    {
        let (_, hidden) = nulls.words();
        let valid = without(alloc, self.valid.as_slice(), hidden)?;
        let values = self.values.clone()?;
        Ok(Lane { valid, values })
    }

    /// The numbers in another type. None exactly where one of them leaves it.
    pub(crate) fn cast<U: Width>(&self, alloc: Global) -> Mem<Option<Lane<U>>>
        ensures { IfOk result (λ lane. lane ≡ if_in_range U.ptype self.now) }
    {
        let mut valid = Vec::with_capacity(alloc, self.valid.len())?;
        let mut values = Vec::with_capacity(alloc, self.len())?;
        'places: for i in 0..self.len() {
            match cast_number::<T, U>(self.value_at(i)) {
                Some(number) => push(&mut valid, &mut values, number)?,
                None => return Ok(None),
            }
        }
        let lane = Lane::of_values(alloc, valid, values)?;
        Ok(Some(lane))
    }

    /// The least and the greatest number; none where all are null.
    pub(crate) fn bounds(&self) -> (Option<i128>, Option<i128>)
        ensures least { result.0 ≡ least_number self.now }
        ensures greatest { result.1 ≡ greatest_number self.now }
    {
        let (least, greatest) = self.own_bounds();
        (wide(least), wide(greatest))
    }

    /// The least and the greatest number, in the type's own width; none where all are null.
    fn own_bounds(&self) -> (Option<T>, Option<T>)
        ensures least { option_map T.value result.0 ≡ least_number self.now }
        ensures greatest { option_map T.value result.1 ≡ greatest_number self.now }
    {
        let (valid, values) = self.parts();
        if self.null_count() == 0 {
            return value_bounds(values);
        }
        known_bounds(valid, values)
    }

    /// At how many places there is no number.
    pub(crate) fn null_count(&self) -> usize
        ensures { result ≡ length (filter is_none self.now) }
    {
        let (valid, values) = self.parts();
        values.len() - bit_count(valid)
    }

    /// Whether two lists have the same numbers.
    pub(crate) fn same(&self, other: &Lane<T>) -> bool
        ensures { Decides result (self.now ≡ other.now) }
    {
        if self.len() != other.len() {
            return false;
        }
        'places: for i in 0..self.len() {
            if !same_number(self.value_at(i), other.value_at(i)) {
                return false;
            }
        }
        true
    }

    /// The number at a place, in the type's own width.
    fn value_at(&self, i: usize) -> Option<T>
        requires { i < length self.now }
        ensures { option_map T.value result ≡ slice_index_or self.now i None }
    {
        let (valid, values) = self.parts();
        if !bit(valid, i) {
            return None;
        }
        Some(values[i])
    }
}

impl<T: Width> Clone for Lane<T> {
    ghost is_clone = { λ lane copy. copy ≡ lane };

    fn clone(&self) -> Result<Lane<T>, AllocError> {
        let alloc = *self.valid.allocator();
        let valid = Vec::from_slice(alloc, self.valid.as_slice())?;
        let values = self.values.clone()?;
        Ok(Lane { valid, values })
    }
}

/// A number, or null, in the type's own width.
fn of_number<T: Width>(number: Option<i128>) -> Option<T>
    requires { fits_ptype T.ptype number ≡ true }
    ensures { option_map T.value result ≡ number }
{
    match number {
        Some(number) => Some(T::of_number(number)),
        None => None,
    }
}

/// The number, or null.
fn wide<T: Width>(number: Option<T>) -> Option<i128>
    ensures { result ≡ option_map T.value number }
{
    match number {
        Some(number) => Some(number.number()),
        None => None,
    }
}

/// Whether two numbers are one, or both are null.
fn same_number<T: Width>(left: Option<T>, right: Option<T>) -> bool
    ensures { result ≡ number_eq (option_map T.value left) (option_map T.value right) }
{
    match (left, right) {
        (None, None) => true,
        (Some(left), Some(right)) => left.is(right),
        _ => false,
    }
}

/// The number in another type, None exactly where it leaves it.
fn cast_number<T: Width, U: Width>(number: Option<T>) -> Option<Option<U>>
    ensures { option_map (option_map U.value) result ≡ total_in U.ptype (option_map T.value number) }
{
    match number {
        Some(number) => known_number(number.number()),
        None => Some(None),
    }
}

/// A number in a type, None exactly where it isn't one of it.
fn known_number<U: Width>(number: i128) -> Option<Option<U>>
    ensures { option_map (option_map U.value) result ≡ total_in U.ptype (Some number) }
{
    if !U::own_type().in_range(number) {
        return None;
    }
    Some(Some(U::of_number(number)))
}

/// One value, this many times.
fn repeated_value<T: Width>(alloc: Global, value: T, len: usize) -> Mem<Vec<T>>
    ensures { IfOk result (λ values. values.items ≡ replicate len value) }
{
    let mut values = Vec::with_capacity(alloc, len)?;
    'places: for _ in 0..len {
        values.push(value)?;
    }
    Ok(values)
}

/// Adds a number, or null, after the last.
fn push<T: Width>(valid: &mut Vec<u64>, values: &mut Vec<T>, number: Option<T>) -> Mem<()>
    requires { AreTidyNumbers valid.old.items (map T.value values.old.items) }
    ensures tidy { IfOk result (λ _. AreTidyNumbers valid.new.items (map T.value values.new.items)) }
    ensures numbers { IfOk result (λ _. numbers_of valid.new.items (map T.value values.new.items)
        ≡ numbers_of valid.old.items (map T.value values.old.items) ++ option_map T.value number ∷ []) }
{
    push_bit(valid, values.len(), number.is_some())?;
    values.push(value_of(number))?;
    Ok(())
}

/// The value that stands at the place of a number, or of null: then 0.
fn value_of<T: Width>(number: Option<T>) -> T
    ensures { number_of (is_some number) (T.value result) ≡ option_map T.value number }
{
    match number {
        Some(number) => number,
        None => T::zero(),
    }
}
