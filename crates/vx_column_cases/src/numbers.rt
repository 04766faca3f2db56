// Calls on lists of integers.
ghost use Rattle.std.specs.Prelude.{◌≡◌, length};
ghost use Rattle.vx_numbers.specs.Numbers.{all_in_range, fits_ptype};

use crate::errors::CaseError;
use crate::rows::{list_in, number_of, text_in};
use crate::words::{told, truths_of, word_in};
use serde_json::Value;
use std::alloc::Global;
use vx_dtype::{CompareOperator, Mem, PType};
use vx_numbers::Numbers;
use vx_words::Truths;

/// A call on one list.
#[derive(Clone, Copy)]
enum OnList {
    Numbers,
    Copy,
    IsNull,
    Bounds,
    Filter,
    CompareWith,
    Cast,
}

/// A call on two lists of one type and one length.
#[derive(Clone, Copy)]
enum OnPair {
    Compare,
    Add,
    Sub,
    AddEquals,
}

/// The comparisons.
const OPERATORS: [CompareOperator; 6] = [
    CompareOperator::Eq,
    CompareOperator::NotEq,
    CompareOperator::Gt,
    CompareOperator::Gte,
    CompareOperator::Lt,
    CompareOperator::Lte,
];

/// The integer types.
const TYPES: [PType; 8] = [
    PType::U8,
    PType::U16,
    PType::U32,
    PType::U64,
    PType::I8,
    PType::I16,
    PType::I32,
    PType::I64,
];

/// The answer to the call of a row, as a text.
pub(crate) fn answer(alloc: Global, row: &Value) -> Result<String, CaseError> {
    let call = text_in(row, "call");
    if let Some(on) = list_call(call) {
        return Ok(on_list(alloc, row, on)?);
    }
    match pair_call(call) {
        Some(on) => Ok(on_pair(alloc, row, on)?),
        None => Ok(other(alloc, row, call)?),
    }
}

/// The call on one list with this name.
fn list_call(name: &str) -> Option<OnList> {
    match name {
        "numbers" => Some(OnList::Numbers),
        "copy" => Some(OnList::Copy),
        "is_null" => Some(OnList::IsNull),
        "bounds" => Some(OnList::Bounds),
        "filter" => Some(OnList::Filter),
        "compare_with" => Some(OnList::CompareWith),
        "cast" => Some(OnList::Cast),
        _ => None,
    }
}

/// The call on two lists with this name.
fn pair_call(name: &str) -> Option<OnPair> {
    match name {
        "compare" => Some(OnPair::Compare),
        "add" => Some(OnPair::Add),
        "sub" => Some(OnPair::Sub),
        "add_equals" => Some(OnPair::AddEquals),
        _ => None,
    }
}

/// The answer to any other call.
fn other(alloc: Global, row: &Value, call: &str) -> Mem<String> {
    match call {
        "equal" => equal(alloc, row, "left", "right"),
        "same" => equal(alloc, row, "list", "list"),
        "repeated" => repeated(alloc, row),
        call => Ok(format!(in alloc; "no call {call}")?),
    }
}

/// What is said where a call can't be made of a row.
fn not_asked(alloc: Global) -> Mem<String> {
    Ok(String::from_str(alloc, "not asked")?)
}

/// A call on the list of a row.
fn on_list(alloc: Global, row: &Value, call: OnList) -> Mem<String> {
    let list = numbers_in(alloc, row, "list")?;
    let text = of_told(alloc, row, &list, call);
    drop(list);
    text
}

/// A call on the list that a row tells.
fn of_told(alloc: Global, row: &Value, list: &Option<Numbers>, call: OnList) -> Mem<String> {
    match list {
        Some(list) => of_list(alloc, row, list, call),
        None => not_asked(alloc),
    }
}

/// A call on a list.
fn of_list(alloc: Global, row: &Value, list: &Numbers, call: OnList) -> Mem<String> {
    match call {
        OnList::Numbers => numbers_text(alloc, list),
        OnList::Copy => told_numbers(alloc, list.clone()?),
        OnList::IsNull => told(alloc, list.is_null(alloc)?),
        OnList::Bounds => bounds_text(alloc, list),
        OnList::Filter => kept(alloc, list, list_in(row, "keep")),
        OnList::CompareWith => comparisons_with(alloc, list, number_in(row, "number")),
        OnList::Cast => casts(alloc, list),
    }
}

/// The least number and the greatest, each or `null`, and at how many places there is none.
fn bounds_text(alloc: Global, list: &Numbers) -> Mem<String> {
    let (least, greatest) = list.bounds();
    let least = number_text(alloc, least)?;
    let greatest = number_text(alloc, greatest)?;
    Ok(format!(in alloc; "{least} {greatest} {}", list.null_count())?)
}

/// A number, or `null`.
fn number_text(alloc: Global, number: Option<i128>) -> Mem<String> {
    match number {
        Some(number) => Ok(format!(in alloc; "{number}")?),
        None => Ok(String::from_str(alloc, "null")?),
    }
}

/// The numbers at the places where these truths are true.
fn kept(alloc: Global, list: &Numbers, keep: &[Value]) -> Mem<String> {
    let keep = truths_of(alloc, keep)?;
    let text = kept_by(alloc, list, &keep);
    drop(keep);
    text
}

/// The same, by a list of truths.
fn kept_by(alloc: Global, list: &Numbers, keep: &Truths) -> Mem<String> {
    if keep.len() != list.len() {
        return not_asked(alloc);
    }
    told_numbers(alloc, list.filter(alloc, keep)?)
}

/// The list's comparisons with a number, one text for each operator.
fn comparisons_with(alloc: Global, list: &Numbers, number: Option<i128>) -> Mem<String> {
    if !fits(list.ptype(), number) {
        return not_asked(alloc);
    }
    let mut text = String::new(alloc);
    for op in OPERATORS {
        push_comparison(alloc, &mut text, op, list.compare_with(alloc, number, op)?)?;
    }
    Ok(text)
}

/// Adds an operator and what it is true of, ended by `;`.
fn push_comparison(
    alloc: Global,
    text: &mut String,
    op: CompareOperator,
    truths: Truths,
) -> Mem<()> {
    let truths = told(alloc, truths)?;
    text.push_str(format!(in alloc; "{op}{truths};")?.as_str())?;
    Ok(())
}

/// The list in each type, or `none`, each ended by `;`.
fn casts(alloc: Global, list: &Numbers) -> Mem<String> {
    let mut text = String::new(alloc);
    for target in TYPES {
        push_cast(alloc, &mut text, list, target)?;
    }
    Ok(text)
}

/// Adds the list in a type, or `none`, ended by `;`.
fn push_cast(alloc: Global, text: &mut String, list: &Numbers, target: PType) -> Mem<()> {
    let made = told_total(alloc, list.cast(alloc, target)?)?;
    text.push_str(made.as_str())?;
    text.push_str(";")?;
    Ok(())
}

/// A call on the two lists of a row.
fn on_pair(alloc: Global, row: &Value, call: OnPair) -> Mem<String> {
    let left = numbers_in(alloc, row, "left")?;
    let text = with_right(alloc, row, &left, call);
    drop(left);
    text
}

/// A call on a list and the right one of a row.
fn with_right(alloc: Global, row: &Value, left: &Option<Numbers>, call: OnPair) -> Mem<String> {
    let right = numbers_in(alloc, row, "right")?;
    let text = of_two(alloc, row, left, &right, call);
    drop(right);
    text
}

/// A call on the two lists that a row tells.
fn of_two(
    alloc: Global,
    row: &Value,
    left: &Option<Numbers>,
    right: &Option<Numbers>,
    call: OnPair,
) -> Mem<String> {
    match (left, right) {
        (Some(left), Some(right)) => on_both(alloc, row, left, right, call),
        _ => not_asked(alloc),
    }
}

/// A call on two lists.
fn on_both(
    alloc: Global,
    row: &Value,
    left: &Numbers,
    right: &Numbers,
    call: OnPair,
) -> Mem<String> {
    if left.ptype() != right.ptype() {
        return not_asked(alloc);
    }
    if left.len() != right.len() {
        return not_asked(alloc);
    }
    of_pair(alloc, row, left, right, call)
}

/// A call on two lists of one type and length.
fn of_pair(alloc: Global, row: &Value, left: &Numbers, right: &Numbers, call: OnPair) -> Mem<String>
    requires types { right.now.ptype ≡ left.now.ptype }
    requires lengths { length right.now.numbers ≡ length left.now.numbers }
{
    match call {
        OnPair::Compare => comparisons(alloc, left, right),
        OnPair::Add => told_total(alloc, left.checked_add(alloc, right)?),
        OnPair::Sub => told_total(alloc, left.checked_sub(alloc, right)?),
        OnPair::AddEquals => is_equal(alloc, left.checked_add(alloc, right)?, row, "total"),
    }
}

/// Whether a list, which is let go, is equal to one of a row.
fn is_equal(alloc: Global, left: Option<Numbers>, row: &Value, right: &str) -> Mem<String> {
    let text = equals(alloc, &left, row, right);
    drop(left);
    text
}

/// The comparisons of two lists, one text for each operator.
fn comparisons(alloc: Global, left: &Numbers, right: &Numbers) -> Mem<String>
    requires types { right.now.ptype ≡ left.now.ptype }
    requires lengths { length right.now.numbers ≡ length left.now.numbers }
{
    let mut text = String::new(alloc);
    for op in OPERATORS {
        push_comparison(alloc, &mut text, op, left.compare(alloc, right, op)?)?;
    }
    Ok(text)
}

/// Whether two lists of a row are equal.
fn equal(alloc: Global, row: &Value, left: &str, right: &str) -> Mem<String> {
    is_equal(alloc, numbers_in(alloc, row, left)?, row, right)
}

/// Whether a list is equal to one of a row.
fn equals(alloc: Global, left: &Option<Numbers>, row: &Value, right: &str) -> Mem<String> {
    let right = numbers_in(alloc, row, right)?;
    let text = equality(alloc, left, &right);
    drop(right);
    text
}

/// Whether two lists are equal.
fn equality(alloc: Global, left: &Option<Numbers>, right: &Option<Numbers>) -> Mem<String> {
    match (left, right) {
        (Some(left), Some(right)) => Ok(format!(in alloc; "{}", *left == *right)?),
        _ => not_asked(alloc),
    }
}

/// Of the list of the row's one number, as many times as it says: the type, the length, and at how many places the number stands.
fn repeated(alloc: Global, row: &Value) -> Mem<String> {
    let Some(ptype) = PType::from_name(text_in(row, "type")) else {
        return not_asked(alloc);
    };
    let number = number_in(row, "number");
    if !fits(ptype, number) {
        return not_asked(alloc);
    }
    let times = word_in(row, "times") as usize;
    let list = Numbers::repeated(alloc, ptype, number, times)?;
    let text = counted(alloc, &list, number);
    drop(list);
    text
}

/// The type of a list, its length, and at how many places a number stands, or null.
fn counted(alloc: Global, list: &Numbers, number: Option<i128>) -> Mem<String> {
    let name = list.ptype().name();
    let count = places_of(list, number);
    Ok(format!(in alloc; "{name} {} {count}", list.len())?)
}

/// At how many places a number stands, or null.
fn places_of(list: &Numbers, number: Option<i128>) -> u64 {
    let mut count = 0u64;
    for i in 0..list.len() {
        if list.number_at(i) == number {
            count = count.saturating_add(1);
        }
    }
    count
}

/// A member that is a whole number, none where it is null.
fn number_in(row: &Value, name: &str) -> Option<i128> {
    row.get(name).and_then(number_of)
}

/// A member that is a list: its type, its numbers, and maybe the truths that make numbers null. None where these make no list.
fn numbers_in(alloc: Global, row: &Value, name: &str) -> Mem<Option<Numbers>> {
    let Some(member) = row.get(name) else {
        return Ok(None);
    };
    let list = unmasked(alloc, member)?;
    if member.get("mask").is_none() {
        return Ok(list);
    }
    let masked = masked(alloc, &list, list_in(member, "mask"));
    drop(list);
    masked
}

/// The list of a type and numbers, none where one of them leaves the type.
fn unmasked(alloc: Global, member: &Value) -> Mem<Option<Numbers>> {
    let Some(ptype) = PType::from_name(text_in(member, "type")) else {
        return Ok(None);
    };
    let mut numbers = Vec::new(alloc);
    for value in list_in(member, "numbers") {
        numbers.push(number_of(value))?;
    }
    if !all_fit(ptype, numbers.as_slice()) {
        return Ok(None);
    }
    Ok(Some(Numbers::from_options(alloc, ptype, numbers.as_slice())?))
}

/// The list, null where these truths are true. None where there isn't a truth for each number.
fn masked(alloc: Global, list: &Option<Numbers>, mask: &[Value]) -> Mem<Option<Numbers>> {
    let Some(list) = list else {
        return Ok(None);
    };
    let nulls = truths_of(alloc, mask)?;
    let masked = masked_by(alloc, list, &nulls);
    drop(nulls);
    masked
}

/// The same, by a list of truths.
fn masked_by(alloc: Global, list: &Numbers, nulls: &Truths) -> Mem<Option<Numbers>> {
    if nulls.len() != list.len() {
        return Ok(None);
    }
    Ok(Some(list.mask(alloc, nulls)?))
}

/// Whether each number is null or one of the type.
fn all_fit(ptype: PType, numbers: &[Option<i128>]) -> bool
    ensures { result ≡ all_in_range ptype numbers.now }
{
    numbers.iter().all(|number| fits(ptype, *number))
}

/// Whether what stands at a place is null or a number of the type.
fn fits(ptype: PType, number: Option<i128>) -> bool
    ensures { result ≡ fits_ptype ptype number }
{
    match number {
        Some(number) => ptype.in_range(number),
        None => true,
    }
}

/// The text of a list, which is let go, or `none`.
fn told_total(alloc: Global, list: Option<Numbers>) -> Mem<String> {
    match list {
        Some(list) => told_numbers(alloc, list),
        None => Ok(String::from_str(alloc, "none")?),
    }
}

/// The text of a list, which is let go.
fn told_numbers(alloc: Global, list: Numbers) -> Mem<String> {
    let text = numbers_text(alloc, &list);
    drop(list);
    text
}

/// The type of a list and each of its numbers, or `null`, behind a blank.
fn numbers_text(alloc: Global, list: &Numbers) -> Mem<String> {
    let mut text = String::from_str(alloc, list.ptype().name())?;
    for i in 0..list.len() {
        push_number(alloc, &mut text, list.number_at(i))?;
    }
    Ok(text)
}

/// Adds a number, or `null`, behind a blank.
fn push_number(alloc: Global, text: &mut String, number: Option<i128>) -> Mem<()> {
    let number = number_text(alloc, number)?;
    text.push_str(" ")?;
    text.push_str(number.as_str())?;
    Ok(())
}
