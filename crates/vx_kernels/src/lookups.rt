// A list of plain values whose elements are put in order once, so that many values are looked up in it.
ghost use Rattle.std.specs.Prelude.{◌≡◌, map, option_map, IfOk};
ghost use Rattle.std.specs.List.{list_any};
ghost use Rattle.std.specs.List.Sorted.{IsSorted, IsPermutation};
ghost use Rattle.std.specs.Ordering.{is_eq};
ghost use Rattle.vx_dtype.specs.Values.{Raw};
ghost use Rattle.vx_dtype.specs.RawViews.{raw_view, raws_of};
ghost use Rattle.vx_kernels.specs.RawRules.{raws_have, raw_contains};
ghost use Rattle.vx_kernels.specs.Lookups.{key_raw, plain_part, list_has, keys_have, AreKeysOf};

use std::alloc::Global;
use vx_column::is_null_value;
use vx_dtype::{Mem, ScalarValue};

/// A plain value that isn't null: false before true, numbers by value, texts by their bytes.
#[derive(Clone, Copy, PartialEq, Eq, PartialOrd, Ord)]
pub(crate) enum Key<'a> {
    Truth(bool),
    Number(i128),
    Text(&'a str),
}

/// The key of a plain value that isn't null, and none of another, which equals nothing.
fn key_of(value: &ScalarValue) -> Option<Key<'_>>
    ensures { option_map key_raw result ≡ plain_part (raw_view value.now) }
{
    match value {
        ScalarValue::Bool(b) => Some(Key::Truth(*b)),
        ScalarValue::Int(i) => Some(Key::Number(*i)),
        ScalarValue::Utf8(text) => Some(Key::Text(text.as_str())),
        _ => None,
    }
}

/// The elements of a list, and none of what is no list.
fn elements_of(list: &ScalarValue) -> &[ScalarValue]
    ensures { list_has (raw_view list.now) ≡ raws_have (raws_of (map raw_view result.now)) }
{
    match list {
        ScalarValue::List(items) => items.as_slice(),
        _ => &[],
    }
}

/// The keys of the elements that have one, in the order of the elements.
fn keys_in(alloc: Global, items: &[ScalarValue]) -> Mem<Vec<Key<'_>>>
    ensures { IfOk result (λ keys. (v : Raw) → raws_have (raws_of (map raw_view items.now)) v ≡ keys_have keys.items v) }
{
    let mut keys = Vec::with_capacity(alloc, items.len())?;
    for item in items {
        if let Some(key) = key_of(item) {
            keys.push(key)?;
        }
    }
    Ok(keys)
}

/// The keys of a list's elements that have one, from the least to the greatest; none of what is no list.
pub(crate) fn sorted_keys(alloc: Global, list: &ScalarValue) -> Mem<Sorted<Key<'_>>>
    ensures { IfOk result (λ keys. AreKeysOf (raw_view list.now) keys.values.items) }
{
    let keys = keys_in(alloc, elements_of(list))?;
    Ok(Sorted::new(keys))
}

/// Values from the least to the greatest.
#[derive(Drop)]
pub(crate) struct Sorted<T: Ord> {
    values: Vec<T>,
    ghost rising: { IsSorted T.cmp values.items },
}

impl<T: Ord> Sorted<T> {
    /// The values in order.
    fn new(values: Vec<T>) -> Sorted<T>
        ensures { IsPermutation values.items result.values.items }
    {
        let mut values = values;
        values.sort_unstable();
        Sorted { values }
    }

    /// Whether one of the values equals another: it halves the values, as often as takes to come to one.
    fn has_equal(&self, x: &T) -> bool
        ensures { result ≡ list_any (λ y. is_eq (T.cmp y x.now)) self.now.values.items }
    {
        self.values.as_slice().binary_search(x).is_ok()
    }
}

/// Whether a list holds a value, by the keys of its elements, and none where one of the two is null.
pub(crate) fn contains_by(
    list: &ScalarValue,
    keys: &Sorted<Key<'_>>,
    value: &ScalarValue,
) -> Option<bool>
    requires { AreKeysOf (raw_view list.now) keys.now.values.items }
    ensures { result ≡ raw_contains (raw_view list.now) (raw_view value.now) }
{
    match list {
        ScalarValue::List(_) => {
            if is_null_value(value) {
                return None;
            }
            Some(have_key(keys, value))
        }
        _ => None,
    }
}

/// Whether one of the keys equals a value; null equals nothing.
fn have_key(keys: &Sorted<Key<'_>>, value: &ScalarValue) -> bool
    ensures { result ≡ keys_have keys.now.values.items (raw_view value.now) }
{
    match key_of(value) {
        Some(key) => keys.has_equal(&key),
        None => false,
    }
}
