// Calls on words of bits and on lists of truths.
ghost use Rattle.std.specs.Prelude.{◌≡◌, length};

use crate::errors::CaseError;
use crate::rows::{list_in, text_in};
use serde_json::Value;
use std::alloc::Global;
use vx_dtype::Mem;
use vx_words::{Truths, and_words, not_words, or_words};

/// A call on one list of truths.
#[derive(Clone, Copy)]
enum OnList {
    Truths,
    Copy,
    Not,
    IsNull,
    TrueCount,
    NextTrue,
    IsRepeated,
    Repeated,
}

/// A call on two lists of truths of one length.
#[derive(Clone, Copy)]
enum OnPair {
    And,
    Or,
    Filter,
    Mask,
    Kept,
}

/// A call on words of bits.
#[derive(Clone, Copy)]
enum OnWords {
    And,
    Or,
    Not,
}

/// The answer to the call of a row, as a text.
pub(crate) fn answer(alloc: Global, row: &Value) -> Result<String, CaseError> {
    let call = text_in(row, "call");
    if let Some(on) = list_call(call) {
        return Ok(on_list(alloc, row, on)?);
    }
    if let Some(on) = pair_call(call) {
        return Ok(on_pair(alloc, row, on)?);
    }
    match words_call(call) {
        Some(on) => Ok(words_text(alloc, on_words(row, on))?),
        None => Ok(format!(in alloc; "no call {call}")?),
    }
}

/// The call on one list with this name.
fn list_call(name: &str) -> Option<OnList> {
    match name {
        "truths" => Some(OnList::Truths),
        "copy" => Some(OnList::Copy),
        "not" => Some(OnList::Not),
        "is_null" => Some(OnList::IsNull),
        "true_count" => Some(OnList::TrueCount),
        "next_true" => Some(OnList::NextTrue),
        "is_repeated" => Some(OnList::IsRepeated),
        "repeated" => Some(OnList::Repeated),
        _ => None,
    }
}

/// The call on two lists with this name.
fn pair_call(name: &str) -> Option<OnPair> {
    match name {
        "and" => Some(OnPair::And),
        "or" => Some(OnPair::Or),
        "filter" => Some(OnPair::Filter),
        "mask" => Some(OnPair::Mask),
        "kept" => Some(OnPair::Kept),
        _ => None,
    }
}

/// The call on words of bits with this name.
fn words_call(name: &str) -> Option<OnWords> {
    match name {
        "and_words" => Some(OnWords::And),
        "or_words" => Some(OnWords::Or),
        "not_words" => Some(OnWords::Not),
        _ => None,
    }
}

/// A call on the truths of a row.
fn on_list(alloc: Global, row: &Value, call: OnList) -> Mem<String> {
    let truths = truths_of(alloc, list_in(row, "truths"))?;
    let text = of_list(alloc, row, &truths, call);
    drop(truths);
    text
}

/// A call on a list of truths.
fn of_list(alloc: Global, row: &Value, truths: &Truths, call: OnList) -> Mem<String> {
    match call {
        OnList::Truths => truths_text(alloc, truths),
        OnList::TrueCount => Ok(format!(in alloc; "{}", truths.true_count())?),
        OnList::NextTrue => next_places(alloc, truths, list_in(row, "from")),
        OnList::IsRepeated => is_repeated(alloc, row, truths),
        _ => told(alloc, list_of(alloc, row, truths, call)?),
    }
}

/// The list that a call makes of a list.
fn list_of(alloc: Global, row: &Value, truths: &Truths, call: OnList) -> Mem<Truths> {
    match call {
        OnList::Not => truths.not(alloc),
        OnList::IsNull => truths.is_null(alloc),
        OnList::Repeated => repeated(alloc, row),
        _ => Ok(truths.clone()?),
    }
}

/// Whether a list is that of the row's one truth, as many times as it says.
fn is_repeated(alloc: Global, row: &Value, truths: &Truths) -> Mem<String> {
    let other = repeated(alloc, row)?;
    let is_same = *truths == other;
    drop(other);
    Ok(format!(in alloc; "{is_same}")?)
}

/// A call on the two lists of a row.
fn on_pair(alloc: Global, row: &Value, call: OnPair) -> Mem<String> {
    let left = truths_of(alloc, list_in(row, "left"))?;
    let text = with_right(alloc, &left, row, call);
    drop(left);
    text
}

/// A call on a list and the right one of a row.
fn with_right(alloc: Global, left: &Truths, row: &Value, call: OnPair) -> Mem<String> {
    let right = truths_of(alloc, list_in(row, "right"))?;
    let text = of_pair(alloc, left, &right, row, call);
    drop(right);
    text
}

/// A call on two lists of truths.
fn of_pair(alloc: Global, left: &Truths, right: &Truths, row: &Value, call: OnPair) -> Mem<String> {
    if left.len() != right.len() {
        return Ok(String::from_str(alloc, "not asked")?);
    }
    told(alloc, pair_of(alloc, left, right, row, call)?)
}

/// The list that a call makes of two lists of one length.
fn pair_of(alloc: Global, left: &Truths, right: &Truths, row: &Value, call: OnPair) -> Mem<Truths>
    requires { length right.now ≡ length left.now }
{
    match call {
        OnPair::And => left.and(alloc, right),
        OnPair::Or => left.or(alloc, right),
        OnPair::Filter => left.filter(alloc, right),
        OnPair::Mask => left.mask(alloc, right),
        OnPair::Kept => kept(alloc, &options_of(alloc, list_in(row, "left"))?, right),
    }
}

/// The items at the places where a list of truths is true, none where there are more or fewer items.
fn kept(alloc: Global, items: &Vec<Option<bool>>, truths: &Truths) -> Mem<Truths> {
    if items.len() != truths.len() {
        return Truths::from_options(alloc, &[]);
    }
    Truths::from_options(alloc, &truths.kept(alloc, items.as_slice())?)
}

/// The list of the row's one truth, as many times as it says.
fn repeated(alloc: Global, row: &Value) -> Mem<Truths> {
    let truth = row.get("truth").and_then(Value::as_bool);
    Truths::repeated(alloc, truth, word_in(row, "times") as usize)
}

/// The next true place from each of these places on, or `none`, each ended by `;`.
fn next_places(alloc: Global, truths: &Truths, places: &[Value]) -> Mem<String> {
    let mut text = String::new(alloc);
    for place in places {
        let from = place.as_u64().unwrap_or(0) as usize;
        match truths.next_true(from) {
            Some(next) => text.push_str(format!(in alloc; "{next};")?.as_str())?,
            None => text.push_str("none;")?,
        }
    }
    Ok(text)
}

/// The list of these truths.
pub(crate) fn truths_of(alloc: Global, values: &[Value]) -> Mem<Truths> {
    let options = options_of(alloc, values)?;
    Truths::from_options(alloc, options.as_slice())
}

/// These truths, each of which is null where it is neither true nor false.
fn options_of(alloc: Global, values: &[Value]) -> Mem<Vec<Option<bool>>> {
    let mut options = Vec::new(alloc);
    for value in values {
        options.push(value.as_bool())?;
    }
    Ok(options)
}

/// The text of truths, which are let go.
pub(crate) fn told(alloc: Global, truths: Truths) -> Mem<String> {
    let text = truths_text(alloc, &truths);
    drop(truths);
    text
}

/// A letter for each truth: `t`, `f`, and `n` for null.
fn truths_text(alloc: Global, truths: &Truths) -> Mem<String> {
    let mut text = String::new(alloc);
    for i in 0..truths.len() {
        text.push_str(letter(truths.truth_at(i)))?;
    }
    Ok(text)
}

/// The letter of a truth.
fn letter(truth: Option<bool>) -> &'static str {
    match truth {
        Some(true) => "t",
        Some(false) => "f",
        None => "n",
    }
}

/// A whole number of 64 bits, 0 where the row has none.
pub(crate) fn word_in(row: &Value, name: &str) -> u64 {
    row.get(name).and_then(Value::as_u64).unwrap_or(0)
}

/// The words that a call makes of those of a row.
fn on_words(row: &Value, call: OnWords) -> (u64, u64) {
    match call {
        OnWords::And => conjunction(row),
        OnWords::Or => disjunction(row),
        OnWords::Not => negation(row),
    }
}

/// The words of validity and of values of one side of a row.
fn side(row: &Value, valid: &str, values: &str) -> ([u64; 1], [u64; 1]) {
    ([word_in(row, valid)], [word_in(row, values)])
}

/// The words of the conjunction of both sides.
fn conjunction(row: &Value) -> (u64, u64) {
    let (lv, lb) = side(row, "left_valid", "left_values");
    let (rv, rb) = side(row, "right_valid", "right_values");
    let mut valid = [0];
    let mut values = [0];
    and_words(&lv, &lb, &rv, &rb, &mut valid, &mut values);
    (valid[0], values[0])
}

/// The words of the disjunction of both sides.
fn disjunction(row: &Value) -> (u64, u64) {
    let (lv, lb) = side(row, "left_valid", "left_values");
    let (rv, rb) = side(row, "right_valid", "right_values");
    let mut valid = [0];
    let mut values = [0];
    or_words(&lv, &lb, &rv, &rb, &mut valid, &mut values);
    (valid[0], values[0])
}

/// The words of the negation of the left side.
fn negation(row: &Value) -> (u64, u64) {
    let (lv, lb) = side(row, "left_valid", "left_values");
    let mut valid = [0];
    let mut values = [0];
    not_words(&lv, &lb, &mut valid, &mut values);
    (valid[0], values[0])
}

/// The word of validity and the word of values, each ended by `;`.
fn words_text(alloc: Global, words: (u64, u64)) -> Mem<String> {
    let (valid, values) = words;
    Ok(format!(in alloc; "{valid};{values};")?)
}
