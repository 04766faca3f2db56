// The least and the greatest value of a column of a plain type.
ghost use Rattle.std.specs.Prelude.{◌≡◌, true, option_copied, IfOk};
ghost use Rattle.vx_dtype.specs.declared.PType.{PType};
ghost use Rattle.vx_dtype.specs.declared.CompareOperator.{CompareOperator};
ghost use Rattle.vx_dtype.specs.TypeRules.{is_bool_ty, is_plain, is_text_ty};
ghost use Rattle.vx_dtype.specs.RawViews.{raw_view};
ghost use Rattle.vx_column.specs.PlainValues.{number_val, text_or_null};
ghost use Rattle.vx_words.specs.Words.{truth_val};
ghost use Rattle.vx_laws_stats.specs.BuiltStatistics.{first_by, least_of, greatest_of, raw_of};
ghost use Rattle.vx_stats.specs.ColumnFacts.{AreBounds};

use std::alloc::Global;
use vx_column::ColumnRef;
use vx_dtype::{DType, Mem, ScalarValue, Text};

/// The least and the greatest value of a column of a plain type that isn't null; null where there is none.
pub(crate) fn bounds_of(alloc: Global, column: &ColumnRef) -> Mem<(ScalarValue, ScalarValue)>
    requires { is_plain column.now.ty ≡ true }
    ensures { IfOk result (AreBounds column.now) }
{
    match column.dtype() {
        DType::Bool(_) => {
            let (least, greatest) = truth_bounds(column);
            Ok((of_truth(least), of_truth(greatest)))
        }
        DType::Primitive(_, _) => {
            let numbers = column.numbers(alloc)?;
            let (least, greatest) = numbers.bounds();
            Ok((of_number(least), of_number(greatest)))
        }
        DType::Utf8(_) => {
            let (least, greatest) = text_bounds(column);
            Ok((of_text(alloc, least)?, of_text(alloc, greatest)?))
        }
        DType::List(_, _) | DType::Struct(_, _) => unreachable!(),
    }
}

/// The least and the greatest of the truths of a column; none where all are null.
fn truth_bounds(column: &ColumnRef) -> (Option<bool>, Option<bool>)
    requires { is_bool_ty column.now.ty ≡ true }
    ensures least { truth_val result.0 ≡ least_of column.now.rows }
    ensures greatest { truth_val result.1 ≡ greatest_of column.now.rows }
{
    let mut least = None;
    let mut greatest = None;
    let mut left = column.len();
    while left > 0 {
        left -= 1;
        let truth = column.truth_at(left);
        least = lesser_truth(truth, least);
        greatest = greater_truth(truth, greatest);
    }
    (least, greatest)
}

/// The least and the greatest of the texts of a column; none where all are null.
fn text_bounds(column: &ColumnRef) -> (Option<&str>, Option<&str>)
    requires { is_text_ty column.now.ty ≡ true }
    ensures least { text_or_null (option_copied result.0) ≡ least_of column.now.rows }
    ensures greatest { text_or_null (option_copied result.1) ≡ greatest_of column.now.rows }
{
    let mut least = None;
    let mut greatest = None;
    let mut left = column.len();
    while left > 0 {
        left -= 1;
        let text = column.text_at(left);
        least = lesser_text(text, least);
        greatest = greater_text(text, greatest);
    }
    (least, greatest)
}

/// The lesser of two truths; where one is null, the other.
fn lesser_truth(left: Option<bool>, right: Option<bool>) -> Option<bool>
    ensures { truth_val result ≡ first_by CompareOperator.Lte (truth_val left) (truth_val right) }
{
    match (left, right) {
        (None, _) => right,
        (_, None) => left,
        (Some(true), Some(false)) => right,
        _ => left,
    }
}

/// The greater of two truths; where one is null, the other.
fn greater_truth(left: Option<bool>, right: Option<bool>) -> Option<bool>
    ensures { truth_val result ≡ first_by CompareOperator.Gte (truth_val left) (truth_val right) }
{
    match (left, right) {
        (None, _) => right,
        (_, None) => left,
        (Some(false), Some(true)) => right,
        _ => left,
    }
}

/// The lesser of two texts by their bytes; where one is null, the other.
fn lesser_text<'a>(left: Option<&'a str>, right: Option<&'a str>) -> Option<&'a str>
    ensures { text_or_null (option_copied result)
        ≡ first_by CompareOperator.Lte (text_or_null (option_copied left.entry)) (text_or_null (option_copied right.entry)) }
{
    match (left, right) {
        (Some(a), Some(b)) => { if a <= b { Some(a) } else { Some(b) } }
        (None, _) => right,
        (_, None) => left,
    }
}

/// The greater of two texts by their bytes; where one is null, the other.
fn greater_text<'a>(left: Option<&'a str>, right: Option<&'a str>) -> Option<&'a str>
    ensures { text_or_null (option_copied result)
        ≡ first_by CompareOperator.Gte (text_or_null (option_copied left.entry)) (text_or_null (option_copied right.entry)) }
{
    match (left, right) {
        (Some(a), Some(b)) => { if a >= b { Some(a) } else { Some(b) } }
        (None, _) => right,
        (_, None) => left,
    }
}

/// The value of a truth, or null.
fn of_truth(truth: Option<bool>) -> ScalarValue
    ensures { raw_view result ≡ raw_of (truth_val truth) }
{
    match truth {
        Some(b) => ScalarValue::Bool(b),
        None => ScalarValue::Null,
    }
}

/// The value of a number, or null.
fn of_number(number: Option<i128>) -> ScalarValue
    ensures { (p : PType) → raw_view result ≡ raw_of (number_val p number) }
{
    match number {
        Some(i) => ScalarValue::Int(i),
        None => ScalarValue::Null,
    }
}

/// The value of a text, or null.
fn of_text(alloc: Global, text: Option<&str>) -> Mem<ScalarValue>
    ensures { IfOk result (λ value. raw_view value ≡ raw_of (text_or_null (option_copied text.entry))) }
{
    match text {
        Some(s) => Ok(ScalarValue::Utf8(Text::new(alloc, s)?)),
        None => Ok(ScalarValue::Null),
    }
}
