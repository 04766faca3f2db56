// Lists of numbers of one integer type.
ghost use Rattle.std.specs.Prelude.{◌≡◌, ℕ, ◌<◌, true, Option, Some, None, length, map, replicate, slice_index_or, is_none, IfOk, Decides};
ghost use Rattle.std.specs.List.{filter};
ghost use Rattle.std.specs.Cmp.{partial_equiv_from_equiv};
ghost use Rattle.std.specs.Option.{option_map};
ghost use Rattle.std.specs.Simd.Lanes.{zip2};
ghost use Rattle.vx_words.specs.Truths.{hidden_if, kept_items};
ghost use Rattle.vx_numbers.specs.Numbers.{number_list, all_in_range, fits_ptype, compared, null_test, on_both, sums, differences, if_in_range};
ghost use Rattle.vx_numbers.specs.Bounds.{least_number, greatest_number};
ghost use Rattle.vx_numbers.specs.NumbersEqual.{numbers_eq, numbers_eq_equiv};
ghost use Rattle.vx_dtype.specs.TypeRules.{same_ptype};
ghost use Rattle.vx_numbers.specs.LaneViews.{list_of};

use crate::lane::Lane;
use crate::operators::{Above, AtLeast, AtMost, Below, Equal, Unequal};
use crate::totals::{Difference, Sum, Total};
use crate::width::Width;
use std::alloc::{AllocError, Global};
use std::marker::Model;
use vx_dtype::{CompareOperator, Mem, PType};
use vx_words::Truths;

/// A list of numbers of one integer type, null at some places.
#[derive(Debug, Drop)]
pub struct Numbers {
    lanes: Lanes,
}

/// The numbers in the type's own width.
#[derive(Debug, Drop)]
enum Lanes {
    U8(Lane<u8>),
    U16(Lane<u16>),
    U32(Lane<u32>),
    U64(Lane<u64>),
    I8(Lane<i8>),
    I16(Lane<i16>),
    I32(Lane<i32>),
    I64(Lane<i64>),
}

impl Model for Numbers {
    ghost use Rattle.std.specs.Prelude.{◌≡◌, true};
    ghost use Rattle.vx_numbers.specs.Numbers.{NumberList, all_in_range};

    ghost Value = { NumberList };

    ghost use Rattle.vx_numbers.specs.LaneViews.{list_of};

    ghost view = { λ ns. list_of ns.lanes };

    ghost invariant = { λ ns. all_in_range (list_of ns.lanes).ptype (list_of ns.lanes).numbers ≡ true };
}

impl Numbers {
    /// The list of these numbers of the type.
    pub fn from_options(alloc: Global, ptype: PType, numbers: &[Option<i128>]) -> Mem<Numbers>
        requires { all_in_range ptype numbers.now ≡ true }
        ensures { IfOk result (λ list. list ≡ number_list ptype numbers.now) }
    {
        let lanes = lanes_from_options(alloc, ptype, numbers)?;
        Ok(Numbers { lanes })
    }

    /// The list of one number of the type, or of null, this many times.
    pub fn repeated(alloc: Global, ptype: PType, number: Option<i128>, len: usize) -> Mem<Numbers>
        requires { fits_ptype ptype number ≡ true }
        ensures { IfOk result (λ list. list ≡ number_list ptype (replicate len number)) }
    {
        let lanes = repeated_lanes(alloc, ptype, number, len)?;
        Ok(Numbers { lanes })
    }

    /// The type of the numbers.
    pub fn ptype(&self) -> PType
        ensures value { result ≡ self.now.ptype }
        ensures range { all_in_range self.now.ptype self.now.numbers ≡ true }
    {
        match &self.lanes {
            Lanes::U8(_) => PType::U8,
            Lanes::U16(_) => PType::U16,
            Lanes::U32(_) => PType::U32,
            Lanes::U64(_) => PType::U64,
            Lanes::I8(_) => PType::I8,
            Lanes::I16(_) => PType::I16,
            Lanes::I32(_) => PType::I32,
            Lanes::I64(_) => PType::I64,
        }
    }

    /// How many places there are.
    pub fn len(&self) -> usize
        ensures { result ≡ length self.now.numbers }
    {
        match &self.lanes {
            Lanes::U8(lane) => lane.len(),
            Lanes::U16(lane) => lane.len(),
            Lanes::U32(lane) => lane.len(),
            Lanes::U64(lane) => lane.len(),
            Lanes::I8(lane) => lane.len(),
            Lanes::I16(lane) => lane.len(),
            Lanes::I32(lane) => lane.len(),
            Lanes::I64(lane) => lane.len(),
        }
    }

    /// The number at a place, counted from 0.
    pub fn number_at(&self, i: usize) -> Option<i128>
        requires { i < length self.now.numbers }
        ensures { result ≡ slice_index_or self.now.numbers i None }
    {
        match &self.lanes {
            Lanes::U8(lane) => lane.number_at(i),
            Lanes::U16(lane) => lane.number_at(i),
            Lanes::U32(lane) => lane.number_at(i),
            Lanes::U64(lane) => lane.number_at(i),
            Lanes::I8(lane) => lane.number_at(i),
            Lanes::I16(lane) => lane.number_at(i),
            Lanes::I32(lane) => lane.number_at(i),
            Lanes::I64(lane) => lane.number_at(i),
        }
    }

    /// The comparison of each number with the one at its place in the other list; null where one is null.
    pub fn compare(&self, alloc: Global, other: &Numbers, op: CompareOperator) -> Mem<Truths>
        requires types { other.now.ptype ≡ self.now.ptype }
        requires lengths { length other.now.numbers ≡ length self.now.numbers }
        ensures { IfOk result (λ truths. truths ≡ zip2 (compared op) self.now.numbers other.now.numbers) }
    {
        match (&self.lanes, &other.lanes) {
            (Lanes::U8(left), Lanes::U8(right)) => compare_lanes(alloc, left, right, op),
            (Lanes::U16(left), Lanes::U16(right)) => compare_lanes(alloc, left, right, op),
            (Lanes::U32(left), Lanes::U32(right)) => compare_lanes(alloc, left, right, op),
            (Lanes::U64(left), Lanes::U64(right)) => compare_lanes(alloc, left, right, op),
            (Lanes::I8(left), Lanes::I8(right)) => compare_lanes(alloc, left, right, op),
            (Lanes::I16(left), Lanes::I16(right)) => compare_lanes(alloc, left, right, op),
            (Lanes::I32(left), Lanes::I32(right)) => compare_lanes(alloc, left, right, op),
            (Lanes::I64(left), Lanes::I64(right)) => compare_lanes(alloc, left, right, op),
            _ => unreachable!(),
        }
    }

    /// The comparison of each number with this one; null where one is null.
    pub fn compare_with(
        &self,
        alloc: Global,
        number: Option<i128>,
        op: CompareOperator,
    ) -> Mem<Truths>
        requires { fits_ptype self.now.ptype number ≡ true }
        ensures { IfOk result (λ truths. truths ≡ map (λ n. compared op n number) self.now.numbers) }
    {
        match &self.lanes {
            Lanes::U8(lane) => compare_lane_with(alloc, lane, number, op),
            Lanes::U16(lane) => compare_lane_with(alloc, lane, number, op),
            Lanes::U32(lane) => compare_lane_with(alloc, lane, number, op),
            Lanes::U64(lane) => compare_lane_with(alloc, lane, number, op),
            Lanes::I8(lane) => compare_lane_with(alloc, lane, number, op),
            Lanes::I16(lane) => compare_lane_with(alloc, lane, number, op),
            Lanes::I32(lane) => compare_lane_with(alloc, lane, number, op),
            Lanes::I64(lane) => compare_lane_with(alloc, lane, number, op),
        }
    }

    /// The sum of each number and the one at its place in the other list; null where one is null. None exactly where a sum leaves the type.
    pub fn checked_add(&self, alloc: Global, other: &Numbers) -> Mem<Option<Numbers>>
        requires types { other.now.ptype ≡ self.now.ptype }
        requires lengths { length other.now.numbers ≡ length self.now.numbers }
        ensures { IfOk result (λ list. list ≡ option_map (number_list self.now.ptype)
            (if_in_range self.now.ptype (sums self.now.numbers other.now.numbers))) }
    {
        let Some(lanes) = total_lanes::<Sum>(alloc, &self.lanes, &other.lanes)? else {
            return Ok(None);
        };
        Ok(Some(Numbers { lanes }))
    }

    /// The difference of each number and the one at its place in the other list; null where one is null. None exactly where a difference
    /// leaves the type.
    pub fn checked_sub(&self, alloc: Global, other: &Numbers) -> Mem<Option<Numbers>>
        requires types { other.now.ptype ≡ self.now.ptype }
        requires lengths { length other.now.numbers ≡ length self.now.numbers }
        ensures { IfOk result (λ list. list ≡ option_map (number_list self.now.ptype)
            (if_in_range self.now.ptype (differences self.now.numbers other.now.numbers))) }
    {
        let Some(lanes) = total_lanes::<Difference>(alloc, &self.lanes, &other.lanes)? else {
            return Ok(None);
        };
        Ok(Some(Numbers { lanes }))
    }

    /// Whether there is no number, place by place.
    pub fn is_null(&self, alloc: Global) -> Mem<Truths>
        ensures { IfOk result (λ truths. truths ≡ map null_test self.now.numbers) }
    {
        match &self.lanes {
            Lanes::U8(lane) => lane.is_null(alloc),
            Lanes::U16(lane) => lane.is_null(alloc),
            Lanes::U32(lane) => lane.is_null(alloc),
            Lanes::U64(lane) => lane.is_null(alloc),
            Lanes::I8(lane) => lane.is_null(alloc),
            Lanes::I16(lane) => lane.is_null(alloc),
            Lanes::I32(lane) => lane.is_null(alloc),
            Lanes::I64(lane) => lane.is_null(alloc),
        }
    }

    /// The least and the greatest number; none where all are null.
    pub fn bounds(&self) -> (Option<i128>, Option<i128>)
        ensures least { result.0 ≡ least_number self.now.numbers }
        ensures greatest { result.1 ≡ greatest_number self.now.numbers }
    {
        match &self.lanes {
            Lanes::U8(lane) => lane.bounds(),
            Lanes::U16(lane) => lane.bounds(),
            Lanes::U32(lane) => lane.bounds(),
            Lanes::U64(lane) => lane.bounds(),
            Lanes::I8(lane) => lane.bounds(),
            Lanes::I16(lane) => lane.bounds(),
            Lanes::I32(lane) => lane.bounds(),
            Lanes::I64(lane) => lane.bounds(),
        }
    }

    /// At how many places there is no number.
    pub fn null_count(&self) -> usize
        ensures { result ≡ length (filter is_none self.now.numbers) }
    {
        match &self.lanes {
            Lanes::U8(lane) => lane.null_count(),
            Lanes::U16(lane) => lane.null_count(),
            Lanes::U32(lane) => lane.null_count(),
            Lanes::U64(lane) => lane.null_count(),
            Lanes::I8(lane) => lane.null_count(),
            Lanes::I16(lane) => lane.null_count(),
            Lanes::I32(lane) => lane.null_count(),
            Lanes::I64(lane) => lane.null_count(),
        }
    }

    /// The numbers at the places where the other list is true, in order.
    pub fn filter(&self, alloc: Global, keep: &Truths) -> Mem<Numbers>
        requires { length keep.now ≡ length self.now.numbers }
        ensures { IfOk result (λ list. list ≡ number_list self.now.ptype (kept_items self.now.numbers keep.now)) }
    {
        let lanes = filter_lanes(alloc, &self.lanes, keep)?;
        Ok(Numbers { lanes })
    }

    /// The numbers, null where the other list is true.
    pub fn mask(&self, alloc: Global, nulls: &Truths) -> Mem<Numbers>
        requires { length nulls.now ≡ length self.now.numbers }
        ensures { IfOk result (λ list. list ≡ number_list self.now.ptype (zip2 hidden_if self.now.numbers nulls.now)) }
    {
        let lanes = mask_lanes(alloc, &self.lanes, nulls)?;
        Ok(Numbers { lanes })
    }

    /// These numbers in another type. None exactly where one of them leaves it.
    pub fn cast(&self, alloc: Global, target: PType) -> Mem<Option<Numbers>>
        ensures { IfOk result (λ list. list ≡ option_map (number_list target) (if_in_range target self.now.numbers)) }
    {
        let Some(lanes) = cast_lanes(alloc, &self.lanes, target)? else {
            return Ok(None);
        };
        Ok(Some(Numbers { lanes }))
    }
}

impl Clone for Numbers {
    ghost is_clone = { λ list copy. copy ≡ list };

    fn clone(&self) -> Result<Numbers, AllocError> {
        let lanes = clone_lanes(&self.lanes)?;
        Ok(Numbers { lanes })
    }
}

impl PartialEq for Numbers {
    ghost eq = { numbers_eq };

    ghost laws = { partial_equiv_from_equiv numbers_eq_equiv };

    fn eq(&self, other: &Numbers) -> bool
        ensures gives { result ≡ numbers_eq self.now other.now }
        ensures same { Decides result (self.now ≡ other.now) }
    {
        same_list(self, other)
    }
}

impl Eq for Numbers {
    ghost laws = { numbers_eq_equiv };
}

/// Whether two lists have one type and the same numbers.
fn same_list(left: &Numbers, right: &Numbers) -> bool
    ensures { Decides result (left.now ≡ right.now) }
{
    if !same_type(left.ptype(), right.ptype()) {
        return false;
    }
    same_numbers(left, right)
}

/// Whether two types are one.
fn same_type(left: PType, right: PType) -> bool
    ensures { result ≡ same_ptype left right }
{
    left == right
}

/// Whether two lists of one type have the same numbers.
fn same_numbers(left: &Numbers, right: &Numbers) -> bool
    requires { right.now.ptype ≡ left.now.ptype }
    ensures { Decides result (left.now.numbers ≡ right.now.numbers) }
{
    match (&left.lanes, &right.lanes) {
        (Lanes::U8(left), Lanes::U8(right)) => left.same(right),
        (Lanes::U16(left), Lanes::U16(right)) => left.same(right),
        (Lanes::U32(left), Lanes::U32(right)) => left.same(right),
        (Lanes::U64(left), Lanes::U64(right)) => left.same(right),
        (Lanes::I8(left), Lanes::I8(right)) => left.same(right),
        (Lanes::I16(left), Lanes::I16(right)) => left.same(right),
        (Lanes::I32(left), Lanes::I32(right)) => left.same(right),
        (Lanes::I64(left), Lanes::I64(right)) => left.same(right),
        _ => unreachable!(),
    }
}

/// These numbers in the type's own width.
fn lanes_from_options(alloc: Global, ptype: PType, numbers: &[Option<i128>]) -> Mem<Lanes>
    requires { all_in_range ptype numbers.now ≡ true }
    ensures { IfOk result (λ lanes. list_of lanes ≡ number_list ptype numbers.now) }
{
    match ptype {
        PType::U8 => Ok(Lanes::U8(Lane::from_options(alloc, numbers)?)),
        PType::U16 => Ok(Lanes::U16(Lane::from_options(alloc, numbers)?)),
        PType::U32 => Ok(Lanes::U32(Lane::from_options(alloc, numbers)?)),
        PType::U64 => Ok(Lanes::U64(Lane::from_options(alloc, numbers)?)),
        PType::I8 => Ok(Lanes::I8(Lane::from_options(alloc, numbers)?)),
        PType::I16 => Ok(Lanes::I16(Lane::from_options(alloc, numbers)?)),
        PType::I32 => Ok(Lanes::I32(Lane::from_options(alloc, numbers)?)),
        PType::I64 => Ok(Lanes::I64(Lane::from_options(alloc, numbers)?)),
    }
}

/// One number, or null, this many times, in the type's own width.
fn repeated_lanes(alloc: Global, ptype: PType, number: Option<i128>, len: usize) -> Mem<Lanes>
    requires { fits_ptype ptype number ≡ true }
    ensures { IfOk result (λ lanes. list_of lanes ≡ number_list ptype (replicate len number)) }
{
    match ptype {
        PType::U8 => Ok(Lanes::U8(Lane::repeated(alloc, number, len)?)),
        PType::U16 => Ok(Lanes::U16(Lane::repeated(alloc, number, len)?)),
        PType::U32 => Ok(Lanes::U32(Lane::repeated(alloc, number, len)?)),
        PType::U64 => Ok(Lanes::U64(Lane::repeated(alloc, number, len)?)),
        PType::I8 => Ok(Lanes::I8(Lane::repeated(alloc, number, len)?)),
        PType::I16 => Ok(Lanes::I16(Lane::repeated(alloc, number, len)?)),
        PType::I32 => Ok(Lanes::I32(Lane::repeated(alloc, number, len)?)),
        PType::I64 => Ok(Lanes::I64(Lane::repeated(alloc, number, len)?)),
    }
}

/// The numbers, null where the list of truths is true.
fn mask_lanes(alloc: Global, lanes: &Lanes, nulls: &Truths) -> Mem<Lanes>
    requires { length nulls.now ≡ length (list_of lanes.now).numbers }
    ensures { IfOk result (λ masked. list_of masked
        ≡ number_list (list_of lanes.now).ptype (zip2 hidden_if (list_of lanes.now).numbers nulls.now)) }
{
    match lanes {
        Lanes::U8(lane) => Ok(Lanes::U8(lane.mask(alloc, nulls)?)),
        Lanes::U16(lane) => Ok(Lanes::U16(lane.mask(alloc, nulls)?)),
        Lanes::U32(lane) => Ok(Lanes::U32(lane.mask(alloc, nulls)?)),
        Lanes::U64(lane) => Ok(Lanes::U64(lane.mask(alloc, nulls)?)),
        Lanes::I8(lane) => Ok(Lanes::I8(lane.mask(alloc, nulls)?)),
        Lanes::I16(lane) => Ok(Lanes::I16(lane.mask(alloc, nulls)?)),
        Lanes::I32(lane) => Ok(Lanes::I32(lane.mask(alloc, nulls)?)),
        Lanes::I64(lane) => Ok(Lanes::I64(lane.mask(alloc, nulls)?)),
    }
}

/// The numbers of a lane in another type. None exactly where one of them leaves it.
fn cast_lanes(alloc: Global, lanes: &Lanes, target: PType) -> Mem<Option<Lanes>>
    ensures { IfOk result (λ cast. option_map list_of cast
        ≡ option_map (number_list target) (if_in_range target (list_of lanes.now).numbers)) }
{
    match lanes {
        Lanes::U8(lane) => cast_lane(alloc, lane, target),
        Lanes::U16(lane) => cast_lane(alloc, lane, target),
        Lanes::U32(lane) => cast_lane(alloc, lane, target),
        Lanes::U64(lane) => cast_lane(alloc, lane, target),
        Lanes::I8(lane) => cast_lane(alloc, lane, target),
        Lanes::I16(lane) => cast_lane(alloc, lane, target),
        Lanes::I32(lane) => cast_lane(alloc, lane, target),
        Lanes::I64(lane) => cast_lane(alloc, lane, target),
    }
}

/// The numbers of one width in another type. None exactly where one of them leaves it.
fn cast_lane<T: Width>(alloc: Global, lane: &Lane<T>, target: PType) -> Mem<Option<Lanes>>
    ensures { IfOk result (λ cast. option_map list_of cast ≡ option_map (number_list target) (if_in_range target lane.now)) }
{
    match target {
        PType::U8 => Ok(lane.cast::<u8>(alloc)?.map(Lanes::U8)),
        PType::U16 => Ok(lane.cast::<u16>(alloc)?.map(Lanes::U16)),
        PType::U32 => Ok(lane.cast::<u32>(alloc)?.map(Lanes::U32)),
        PType::U64 => Ok(lane.cast::<u64>(alloc)?.map(Lanes::U64)),
        PType::I8 => Ok(lane.cast::<i8>(alloc)?.map(Lanes::I8)),
        PType::I16 => Ok(lane.cast::<i16>(alloc)?.map(Lanes::I16)),
        PType::I32 => Ok(lane.cast::<i32>(alloc)?.map(Lanes::I32)),
        PType::I64 => Ok(lane.cast::<i64>(alloc)?.map(Lanes::I64)),
    }
}

/// The numbers at the places where the list of truths is true, in order.
fn filter_lanes(alloc: Global, lanes: &Lanes, keep: &Truths) -> Mem<Lanes>
    requires { length keep.now ≡ length (list_of lanes.now).numbers }
    ensures { IfOk result (λ kept. list_of kept
        ≡ number_list (list_of lanes.now).ptype (kept_items (list_of lanes.now).numbers keep.now)) }
{
    match lanes {
        Lanes::U8(lane) => Ok(Lanes::U8(lane.filter(alloc, keep)?)),
        Lanes::U16(lane) => Ok(Lanes::U16(lane.filter(alloc, keep)?)),
        Lanes::U32(lane) => Ok(Lanes::U32(lane.filter(alloc, keep)?)),
        Lanes::U64(lane) => Ok(Lanes::U64(lane.filter(alloc, keep)?)),
        Lanes::I8(lane) => Ok(Lanes::I8(lane.filter(alloc, keep)?)),
        Lanes::I16(lane) => Ok(Lanes::I16(lane.filter(alloc, keep)?)),
        Lanes::I32(lane) => Ok(Lanes::I32(lane.filter(alloc, keep)?)),
        Lanes::I64(lane) => Ok(Lanes::I64(lane.filter(alloc, keep)?)),
    }
}

/// The totals of the numbers of two lanes of one type. None exactly where a total leaves the type.
fn total_lanes<O: Total>(alloc: Global, left: &Lanes, right: &Lanes) -> Mem<Option<Lanes>>
    requires types { (list_of right.now).ptype ≡ (list_of left.now).ptype }
    requires lengths { length (list_of right.now).numbers ≡ length (list_of left.now).numbers }
    ensures { IfOk result (λ lanes. option_map list_of lanes ≡ option_map (number_list (list_of left.now).ptype)
        (if_in_range (list_of left.now).ptype (zip2 (on_both O.rule) (list_of left.now).numbers (list_of right.now).numbers))) }
{
    match (left, right) {
        (Lanes::U8(left), Lanes::U8(right)) => Ok(left.totals::<O>(alloc, right)?.map(Lanes::U8)),
        (Lanes::U16(left), Lanes::U16(right)) => Ok(
            left.totals::<O>(alloc, right)?.map(Lanes::U16),
        ),
        (Lanes::U32(left), Lanes::U32(right)) => Ok(
            left.totals::<O>(alloc, right)?.map(Lanes::U32),
        ),
        (Lanes::U64(left), Lanes::U64(right)) => Ok(
            left.totals::<O>(alloc, right)?.map(Lanes::U64),
        ),
        (Lanes::I8(left), Lanes::I8(right)) => Ok(left.totals::<O>(alloc, right)?.map(Lanes::I8)),
        (Lanes::I16(left), Lanes::I16(right)) => Ok(
            left.totals::<O>(alloc, right)?.map(Lanes::I16),
        ),
        (Lanes::I32(left), Lanes::I32(right)) => Ok(
            left.totals::<O>(alloc, right)?.map(Lanes::I32),
        ),
        (Lanes::I64(left), Lanes::I64(right)) => Ok(
            left.totals::<O>(alloc, right)?.map(Lanes::I64),
        ),
        _ => unreachable!(),
    }
}

/// The same numbers.
fn clone_lanes(lanes: &Lanes) -> Result<Lanes, AllocError>
    ensures { IfOk result (λ copy. list_of copy ≡ list_of lanes.now) }
{
    match lanes {
        Lanes::U8(lane) => Ok(Lanes::U8(lane.clone()?)),
        Lanes::U16(lane) => Ok(Lanes::U16(lane.clone()?)),
        Lanes::U32(lane) => Ok(Lanes::U32(lane.clone()?)),
        Lanes::U64(lane) => Ok(Lanes::U64(lane.clone()?)),
        Lanes::I8(lane) => Ok(Lanes::I8(lane.clone()?)),
        Lanes::I16(lane) => Ok(Lanes::I16(lane.clone()?)),
        Lanes::I32(lane) => Ok(Lanes::I32(lane.clone()?)),
        Lanes::I64(lane) => Ok(Lanes::I64(lane.clone()?)),
    }
}

/// The comparison of each number of one lane with the one at its place in the other.
fn compare_lanes<T: Width>(
    alloc: Global,
    left: &Lane<T>,
    right: &Lane<T>,
    op: CompareOperator,
) -> Mem<Truths>
    requires { length right.now ≡ length left.now }
    ensures { IfOk result (λ truths. truths ≡ zip2 (compared op) left.now right.now) }
{
    match op {
        CompareOperator::Eq => left.compare::<Equal>(alloc, right),
        CompareOperator::NotEq => left.compare::<Unequal>(alloc, right),
        CompareOperator::Gt => left.compare::<Above>(alloc, right),
        CompareOperator::Gte => left.compare::<AtLeast>(alloc, right),
        CompareOperator::Lt => left.compare::<Below>(alloc, right),
        CompareOperator::Lte => left.compare::<AtMost>(alloc, right),
    }
}

/// The comparison of each number of a lane with this one.
fn compare_lane_with<T: Width>(
    alloc: Global,
    lane: &Lane<T>,
    number: Option<i128>,
    op: CompareOperator,
) -> Mem<Truths>
    requires { fits_ptype T.ptype number ≡ true }
    ensures { IfOk result (λ truths. truths ≡ map (λ n. compared op n number) lane.now) }
{
    match op {
        CompareOperator::Eq => lane.compare_with::<Equal>(alloc, number),
        CompareOperator::NotEq => lane.compare_with::<Unequal>(alloc, number),
        CompareOperator::Gt => lane.compare_with::<Above>(alloc, number),
        CompareOperator::Gte => lane.compare_with::<AtLeast>(alloc, number),
        CompareOperator::Lt => lane.compare_with::<Below>(alloc, number),
        CompareOperator::Lte => lane.compare_with::<AtMost>(alloc, number),
    }
}
