// JSON values looked into: objects with exactly these members, lists of such values, whole numbers.
ghost use Rattle.std.specs.Prelude.{◌≡◌, ◌∷◌, [], map, option_map, IfOk};
ghost use Rattle.serde_json.specs.View.{view, items_view, members_view};
ghost use Rattle.serde_json.specs.Written.{has_float, items_have_float, members_have_float};
ghost use Rattle.vx_request.specs.Objects.{has_members, object_of, list_read, integer_in};

use serde_json::{Map, Value};
use std::alloc::Global;
use vx_dtype::Mem;

/// Whether a value is an object of so many members.
#[tactic(auto, using(crate::proofs::ObjectLemmas::members_len_view))]
pub(crate) fn has_members(value: &Value, number: usize) -> bool
    ensures { result ≡ has_members number (view value.now) }
{
    match value.as_object() {
        Some(members) => members.len() == number,
        None => false,
    }
}

/// The members of two names, where a value is an object of exactly these.
pub(crate) fn two_members<'v>(
    value: &'v Value,
    first: &str,
    second: &str,
) -> Option<(&'v Value, &'v Value)>
    ensures { option_map (λ p. view p.0.now ∷ view p.1.now ∷ []) result ≡ object_of (first.now ∷ second.now ∷ []) (view value.now) }
{
    if !has_members(value, 2) {
        return None;
    }
    Some((value.get(first)?, value.get(second)?))
}

/// The members of three names, where a value is an object of exactly these.
pub(crate) fn three_members<'v>(
    value: &'v Value,
    first: &str,
    second: &str,
    third: &str,
) -> Option<(&'v Value, &'v Value, &'v Value)>
    ensures { option_map (λ p. view p.0.now ∷ view p.1.now ∷ view p.2.now ∷ []) result
        ≡ object_of (first.now ∷ second.now ∷ third.now ∷ []) (view value.now) }
{
    if !has_members(value, 3) {
        return None;
    }
    Some((value.get(first)?, value.get(second)?, value.get(third)?))
}

/// What is read of a JSON value, and may borrow from it.
pub(crate) trait FromValue<'v>: Sized + Drop {
    ghost use Rattle.std.specs.Prelude.{Option};
    ghost use Rattle.serde_json.specs.Data.{Data};

    /// What it stands for.
    ghost Seen: { Type 0 };

    ghost seen: { Self → Seen };

    /// What a JSON value is read as.
    ghost found: { Data → Option Seen };

    /// What a value is read as, none where it isn't of the form.
    fn from_value(alloc: Global, value: &'v Value) -> Mem<Option<Self>>
        ensures { IfOk result (λ x. option_map seen x ≡ found (view value.now)) };
}

/// What each value of a list is read as, where all are of the form.
#[tactic(auto, using(crate::proofs::ItemLemmas::found_one_more, crate::proofs::ItemLemmas::found_at_end))]
pub(crate) fn list_read<'v, T: FromValue<'v>>(
    alloc: Global,
    value: &'v Value,
) -> Mem<Option<Vec<T>>>
    ensures { IfOk result (λ list. option_map (λ v. map T.seen v.items) list ≡ list_read T.found (view value.now)) }
{
    let Some(items) = value.as_array() else {
        return Ok(None);
    };
    let mut list = Vec::with_capacity(alloc, items.len())?;
    for item in items {
        match T::from_value(alloc, item)? {
            Some(read) => list.push(read)?,
            None => return Ok(None),
        }
    }
    Ok(Some(list))
}

/// The whole number that a value is, with or without a sign.
#[tactic(auto, using(crate::proofs::ObjectLemmas::integer_by_count, crate::proofs::ObjectLemmas::integer_by_sign))]
pub(crate) fn integer_in(value: &Value) -> Option<i128>
    ensures { result ≡ integer_in (view value.now) }
{
    if let Some(number) = value.as_u64() {
        return Some(number as i128);
    }
    match value.as_i64() {
        Some(number) => Some(number as i128),
        None => None,
    }
}

/// Whether a number in a value, at any depth, is no whole number of 64 bits.
#[cycle(numbers)]
pub(crate) fn has_float(value: &Value) -> bool
    ensures { result ≡ has_float (view value.now) }
{
    match value {
        Value::Number(number) => number.is_f64(),
        Value::Array(items) => items_have_float(items),
        Value::Object(members) => members_have_float(members),
        _ => false,
    }
}

/// The same of the items of a list.
#[cycle(numbers)]
fn items_have_float(items: &Vec<Value>) -> bool
    ensures { result ≡ items_have_float (items_view items.now.items) }
{
    for item in items {
        if has_float(item) {
            return true;
        }
    }
    false
}

/// The same of the members of an object.
#[cycle(numbers)]
fn members_have_float(members: &Map<String, Value>) -> bool
    ensures { result ≡ members_have_float (members_view members.now.entries) }
{
    for (_, member) in members.iter() {
        if has_float(member) {
            return true;
        }
    }
    false
}
