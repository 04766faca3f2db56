// Comparisons of plain columns.
ghost use Rattle.std.specs.Prelude.{◌≡◌, true, length, map, option_map, option_copied, IfOk, IfSome};
ghost use Rattle.std.proofs.Math.ListN.{replicate};
ghost use Rattle.vx_dtype.specs.Types.{bool_ty};
ghost use Rattle.vx_dtype.specs.TypeRules.{is_plain, alike, nullability_of, union};
ghost use Rattle.vx_dtype.specs.TypeViews.{type_view};
ghost use Rattle.vx_dtype.specs.Order.{meets, compare3, between3};
ghost use Rattle.vx_dtype.specs.RawViews.{raw_view, raws_of};
ghost use Rattle.vx_dtype.specs.Lists.{contains3};
ghost use Rattle.vx_dtype.specs.Fits.{fits};
ghost use Rattle.vx_column.specs.Columns.{seen, zip_rows, zip_rows3};
ghost use Rattle.vx_kernels.specs.Lookups.{AreKeysOf};
ghost use Rattle.vx_kernels.specs.RawRules.{raw_order, raw_equal, raws_have, raw_contains, lists_kind};

use crate::logic::{and_kleene, union_of};
use crate::lookups::{Key, Sorted, contains_by, sorted_keys};
use crate::rows::{TruthRule, zip_columns};
use std::alloc::Global;
use std::cmp::Ordering;
use vx_column::{ColumnParts, ColumnRef, is_null_value, number_of};
use vx_dtype::{BetweenOptions, CompareOperator, DType, Mem, ScalarValue};

/// How two plain values of one kind stand: false before true, numbers by value, texts by their bytes. None where one of them is null.
pub(crate) fn order_of(l: &ScalarValue, r: &ScalarValue) -> Option<Ordering>
    ensures { result ≡ raw_order (raw_view l.now) (raw_view r.now) }
{
    match (l, r) {
        (ScalarValue::Bool(a), ScalarValue::Bool(b)) => Some(a.cmp(b)),
        (ScalarValue::Int(a), ScalarValue::Int(b)) => Some(a.cmp(b)),
        (ScalarValue::Utf8(a), ScalarValue::Utf8(b)) => Some(a.as_str().cmp(b.as_str())),
        _ => None,
    }
}

/// Whether a comparison holds, and none where there is no order.
fn compared(op: CompareOperator, order: Option<Ordering>) -> Option<bool>
    ensures { result ≡ option_map (meets op) order }
{
    match order {
        Some(order) => Some(op.holds(order)),
        None => None,
    }
}

/// The comparison of values of two plain types, which are equal but for nullability.
#[derive(Drop)]
struct Comparison<'a> {
    op: CompareOperator,
    left: &'a DType,
    right: &'a DType,
    ghost plain: { is_plain (type_view left.now) ≡ true },
    ghost same: { alike (type_view left.now) (type_view right.now) ≡ true },
}

impl TruthRule for Comparison<'_> {
    ghost left = { λ a. type_view a.left.now };

    ghost right = { λ a. type_view a.right.now };

    ghost nullability = { λ a. union (nullability_of (type_view a.left.now)) (nullability_of (type_view a.right.now)) };

    ghost rule = { λ a. compare3 a.op };

    #[tactic(auto, using(crate::proofs::OrderLemmas::compare3_valued, crate::proofs::OrderLemmas::order_fits))]
    fn at(&self, l: &ScalarValue, r: &ScalarValue) -> Option<bool> {
        compared(self.op, order_of(l, r))
    }
}

/// Whether a comparison holds, row by row: false before true, numbers by value, texts by their bytes; null where a side is null.
pub fn compare(alloc: Global, l: &ColumnRef, r: &ColumnRef, op: CompareOperator) -> Mem<ColumnRef>
    requires plain { is_plain l.now.ty ≡ true }
    requires same { alike l.now.ty r.now.ty ≡ true }
    requires lengths { length l.now.rows ≡ length r.now.rows }
    ensures dtype { IfOk result (λ c. c.ty ≡ bool_ty (union (nullability_of l.now.ty) (nullability_of r.now.ty))) }
    ensures rows { IfOk result (λ c. c.rows ≡ zip_rows (compare3 op) l.now.rows r.now.rows) }
{
    let nullability = union_of(l, r);
    match (l.parts(), r.parts()) {
        (ColumnParts::Numbers(left), ColumnParts::Numbers(right)) => {
            let truths = left.compare(alloc, right, op)?;
            ColumnRef::from_truths(alloc, truths, nullability)
        }
        (ColumnParts::Numbers(left), ColumnParts::Constant(value)) => {
            let truths = left.compare_with(alloc, number_of(value), op)?;
            ColumnRef::from_truths(alloc, truths, nullability)
        }
        (ColumnParts::Constant(value), ColumnParts::Numbers(right)) => {
            let truths = right.compare_with(alloc, number_of(value), op.swap())?;
            ColumnRef::from_truths(alloc, truths, nullability)
        }
        _ => {
            let left = l.dtype();
            let right = r.dtype();
            zip_columns(alloc, &Comparison { op, left, right }, nullability, l, r)
        }
    }
}

/// Whether the lower bound stands before the value and the value before the upper bound, row by row. The conjunction is Kleene's, also beside a null bound.
pub fn between(
    alloc: Global,
    c: &ColumnRef,
    lower: &ColumnRef,
    upper: &ColumnRef,
    options: BetweenOptions,
) -> Mem<ColumnRef>
    requires plain { is_plain c.now.ty ≡ true }
    requires lower { alike c.now.ty lower.now.ty ≡ true }
    requires upper { alike c.now.ty upper.now.ty ≡ true }
    requires lower_length { length c.now.rows ≡ length lower.now.rows }
    requires upper_length { length c.now.rows ≡ length upper.now.rows }
    ensures dtype { IfOk result (λ made. made.ty ≡ bool_ty (union (nullability_of c.now.ty)
        (union (nullability_of lower.now.ty) (nullability_of upper.now.ty)))) }
    ensures rows { IfOk result (λ made. made.rows ≡ zip_rows3 (between3 options) c.now.rows lower.now.rows upper.now.rows) }
{
    let above = compare(alloc, lower, c, options.lower_strict.to_operator())?;
    let below = compare(alloc, c, upper, options.upper_strict.to_operator())?;
    and_kleene(alloc, &above, &below)
}

/// Whether two plain values of one kind are equal; null equals nothing.
fn equal(l: &ScalarValue, r: &ScalarValue) -> bool
    ensures { result ≡ raw_equal (raw_view l.now) (raw_view r.now) }
{
    match order_of(l, r) {
        Some(order) => order.is_eq(),
        None => false,
    }
}

/// Whether one of the elements equals a value.
fn has_element(items: &[ScalarValue], value: &ScalarValue) -> bool
    ensures { result ≡ raws_have (raws_of (map raw_view items.now)) (raw_view value.now) }
{
    for item in items {
        if equal(item, value) {
            return true;
        }
    }
    false
}

/// Whether a list holds a value, and none where one of the two is null.
fn contains(list: &ScalarValue, value: &ScalarValue) -> Option<bool>
    ensures { result ≡ raw_contains (raw_view list.now) (raw_view value.now) }
{
    match list {
        ScalarValue::List(items) => {
            if is_null_value(value) {
                return None;
            }
            Some(has_element(items.as_slice(), value))
        }
        _ => None,
    }
}

/// The membership of values of a type in lists of a type.
#[derive(Drop)]
struct Membership<'a> {
    list: &'a DType,
    value: &'a DType,
    ghost kind: { lists_kind (type_view list.now) (type_view value.now) ≡ true },
}

impl TruthRule for Membership<'_> {
    ghost left = { λ a. type_view a.list.now };

    ghost right = { λ a. type_view a.value.now };

    ghost nullability = { λ a. union (nullability_of (type_view a.list.now)) (nullability_of (type_view a.value.now)) };

    ghost rule = { λ _. contains3 };

    #[tactic(auto, using(crate::proofs::ListLemmas::contains3_valued, crate::proofs::ListLemmas::contains_fits))]
    fn at(&self, l: &ScalarValue, r: &ScalarValue) -> Option<bool> {
        contains(l, r)
    }
}

/// The membership of values of a type in one list, which all rows share, by the keys of its elements.
#[derive(Drop)]
struct SharedMembership<'a> {
    list: &'a DType,
    value: &'a DType,
    shared: &'a ScalarValue,
    keys: Sorted<Key<'a>>,
    ghost kind: { lists_kind (type_view list.now) (type_view value.now) ≡ true },
    ghost fit: { fits (raw_view shared.now) (type_view list.now) ≡ true },
    ghost same: { AreKeysOf (raw_view shared.now) keys.values.items },
}

impl TruthRule for SharedMembership<'_> {
    ghost left = { λ a. type_view a.list.now };

    ghost right = { λ a. type_view a.value.now };

    ghost nullability = { λ a. union (nullability_of (type_view a.list.now)) (nullability_of (type_view a.value.now)) };

    ghost rule = { λ a _ v. contains3 (seen (type_view a.list.now) a.shared.now) v };

    #[tactic(auto, using(crate::proofs::ListLemmas::contains3_valued, crate::proofs::ListLemmas::contains_fits))]
    fn at(&self, _l: &ScalarValue, r: &ScalarValue) -> Option<bool> {
        contains_by(self.shared, &self.keys, r)
    }
}

/// Below so many values a look at each element of their list costs less than to put the elements in order.
const FEW_VALUES: usize = 16;

/// The list that the rows share, where it pays to put its elements in order: where the values are neither one nor few.
fn shared_list<'a>(list: &'a ColumnRef, value: &ColumnRef) -> Option<&'a ScalarValue>
    ensures value { IfSome (option_copied result) (λ x. list.now.rows ≡ replicate (length list.now.rows) (seen list.now.ty x)) }
    ensures fit { IfSome (option_copied result) (λ x. fits (raw_view x) list.now.ty ≡ true) }
{
    if value.len() < FEW_VALUES {
        return None;
    }
    match value.constant_value() {
        Some(_) => None,
        None => list.constant_value(),
    }
}

/// Whether the list has an element that equals the value, row by row; null where one of the two is null. A null element equals nothing.
pub fn list_contains(alloc: Global, list: &ColumnRef, value: &ColumnRef) -> Mem<ColumnRef>
    requires kind { lists_kind list.now.ty value.now.ty ≡ true }
    requires lengths { length list.now.rows ≡ length value.now.rows }
    ensures dtype { IfOk result (λ c. c.ty ≡ bool_ty (union (nullability_of list.now.ty) (nullability_of value.now.ty))) }
    ensures rows { IfOk result (λ c. c.rows ≡ zip_rows contains3 list.now.rows value.now.rows) }
{
    let nullability = union_of(list, value);
    match shared_list(list, value) {
        Some(shared) => {
            let rule = SharedMembership {
                list: list.dtype(),
                value: value.dtype(),
                shared,
                keys: sorted_keys(alloc, shared)?,
            };
            zip_columns(alloc, &rule, nullability, list, value)
        }
        None => {
            let rule = Membership {
                list: list.dtype(),
                value: value.dtype(),
            };
            zip_columns(alloc, &rule, nullability, list, value)
        }
    }
}
