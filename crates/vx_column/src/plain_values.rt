// Plain values as truths and texts, and such values made of truths.
ghost use Rattle.std.specs.Prelude.{◌≡◌, true, Some, map, IfOk, option_copied};
ghost use Rattle.vx_dtype.specs.declared.Nullability.{Nullability};
ghost use Rattle.vx_dtype.specs.Types.{Ty, bool_ty, text_ty};
ghost use Rattle.vx_dtype.specs.Values.{null_val};
ghost use Rattle.vx_dtype.specs.TypeRules.{is_nullable, nullability_of};
ghost use Rattle.vx_dtype.specs.Fits.{fits};
ghost use Rattle.vx_dtype.specs.RawViews.{raw_view};
ghost use Rattle.vx_words.specs.Words.{truth_val};
ghost use Rattle.vx_words.specs.Truths.{is_true};
ghost use Rattle.vx_column.specs.Columns.{seen};
ghost use Rattle.vx_column.specs.PlainValues.{text_or_null, text_or_null_fits};
ghost use Rattle.vx_column.specs.RawParts.{is_raw_null, raw_truth, truth_fits};

use std::alloc::Global;
use vx_dtype::{Mem, ScalarValue};
use vx_words::Truths;

/// The truth of a boolean value, and none of another.
pub fn truth_of(value: &ScalarValue) -> Option<bool>
    ensures { result ≡ raw_truth (raw_view value.now) }
{
    match value {
        ScalarValue::Bool(b) => Some(*b),
        _ => None,
    }
}

/// The value with this truth, or null.
#[tactic(auto, unfolding(vx_dtype::specs::Fits::fits, vx_dtype::specs::Values::valued))]
pub fn of_truth(truth: Option<bool>) -> ScalarValue
    ensures value { (n : Nullability) → seen (bool_ty n) result ≡ truth_val truth }
    ensures fit { (n : Nullability) → truth_fits n truth ≡ true → fits (raw_view result) (bool_ty n) ≡ true }
{
    match truth {
        Some(b) => ScalarValue::Bool(b),
        None => ScalarValue::Null,
    }
}

/// The text of a text value, and none of null.
#[tactic(auto, unfolding(vx_dtype::specs::Fits::fits, vx_dtype::specs::Values::valued))]
pub fn text_of(value: &ScalarValue) -> Option<&str>
    ensures value { (n : Nullability) → fits (raw_view value.now) (text_ty n) ≡ true → seen (text_ty n) value.now ≡ text_or_null (option_copied result) }
    ensures fit { (n : Nullability) → fits (raw_view value.now) (text_ty n) ≡ true → text_or_null_fits n (option_copied result) ≡ true }
{
    match value {
        ScalarValue::Utf8(text) => Some(text.as_str()),
        _ => None,
    }
}

/// Null, a value of each nullable type.
#[tactic(auto, unfolding(vx_dtype::specs::Fits::fits, vx_dtype::specs::Values::valued))]
pub(crate) fn null() -> ScalarValue
    ensures value { (t : Ty) → seen t result ≡ null_val }
    ensures fit { (t : Ty) → is_nullable (nullability_of t) ≡ true → fits (raw_view result) t ≡ true }
{
    ScalarValue::Null
}

/// Whether a value is null.
pub fn is_null_value(value: &ScalarValue) -> bool
    ensures { result ≡ is_raw_null (raw_view value.now) }
{
    match value {
        ScalarValue::Null => true,
        _ => false,
    }
}

/// Whether a truth is true.
pub(crate) fn is_true(truth: Option<bool>) -> bool
    ensures { result ≡ is_true truth }
{
    matches!(truth, Some(true))
}

/// The truths of boolean values.
pub(crate) fn truths_of_values(alloc: Global, values: &[ScalarValue]) -> Mem<Truths>
    ensures { IfOk result (λ truths. truths ≡ map (λ x. raw_truth (raw_view x)) values.now) }
{
    let mut truths = Vec::with_capacity(alloc, values.len())?;
    for value in values {
        truths.push(truth_of(value))?;
    }
    Truths::from_options(alloc, truths.as_slice())
}

/// Whether values are null, one by one.
pub(crate) fn are_null(alloc: Global, values: &[ScalarValue]) -> Mem<Truths>
    ensures { IfOk result (λ truths. truths ≡ map (λ x. Some (is_raw_null (raw_view x))) values.now) }
{
    let mut truths = Vec::with_capacity(alloc, values.len())?;
    for value in values {
        truths.push(Some(is_null_value(value)))?;
    }
    Truths::from_options(alloc, truths.as_slice())
}
