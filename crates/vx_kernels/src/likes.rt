// LIKE on text columns.
ghost use Rattle.std.specs.Prelude.{◌≡◌, true, length, IfOk, option_copied};
ghost use Rattle.vx_dtype.specs.declared.Nullability.{Nullability};
ghost use Rattle.vx_dtype.specs.Types.{bool_ty, text_ty};
ghost use Rattle.vx_dtype.specs.TypeRules.{is_text_ty, nullability_of, union};
ghost use Rattle.vx_dtype.specs.Like.{like3, inverted_if};
ghost use Rattle.vx_words.specs.Words.{truth_val};
ghost use Rattle.vx_words.specs.Truths.{vals_of};
ghost use Rattle.vx_column.specs.ColumnParts.{truths_fit};
ghost use Rattle.vx_column.specs.Columns.{zip_rows};
ghost use Rattle.vx_column.specs.RawParts.{truth_fits};
ghost use Rattle.vx_column.specs.PlainValues.{text_or_null, text_or_null_fits};
ghost use Rattle.vx_kernels.specs.LastPatterns.{IsPatternFor, IsLastIfAny};

use crate::patterns::Pattern;
use std::alloc::Global;
use vx_column::{ColumnRef, of_truth, text_of};
use vx_dtype::{DType, Mem, Nullability};
use vx_words::Truths;

/// The answer, true and false exchanged where it is negated.
fn inverted_if(negated: bool, found: bool) -> bool
    ensures { result ≡ inverted_if negated found }
{
    if negated { !found } else { found }
}

/// A pattern beside the text that spells it. Successive rows mostly have one pattern, so it is kept for the next.
#[derive(Drop)]
struct LastPattern<'a> {
    text: &'a str,
    pattern: Pattern,
}

/// The pattern that a text spells: the last one, where it is of the same text.
fn pattern_for<'a>(
    alloc: Global,
    last: Option<LastPattern<'a>>,
    text: &'a str,
    fold_case: bool,
) -> Mem<LastPattern<'a>>
    requires { IsLastIfAny fold_case last }
    ensures { IfOk result (λ made. IsPatternFor fold_case text.now made) }
{
    if let Some(last) = last {
        if last.text == text {
            return Ok(last);
        }
    }
    let pattern = Pattern::new(alloc, text, fold_case)?;
    Ok(LastPattern { text, pattern })
}

/// The match of texts with patterns of two types.
#[derive(Drop)]
struct Matching {
    negated: bool,
    case_insensitive: bool,
    left: Nullability,
    right: Nullability,
}

impl Matching {
    /// Whether a text matches a pattern, inverted where this is negated, and none where there is no text or no pattern. The
    /// pattern is kept as the last one, for the next row.
    fn truth<'a>(
        &self,
        alloc: Global,
        text: Option<&str>,
        pattern: Option<&'a str>,
        last: &mut Option<LastPattern<'a>>,
    ) -> Mem<Option<bool>>
        requires { IsLastIfAny self.now.case_insensitive last.old }
        ensures value { IfOk result (λ t. truth_val t ≡ like3 self.now.negated self.now.case_insensitive (text_or_null (option_copied text.entry))
            (text_or_null (option_copied pattern.entry))) }
        ensures fit { (n m : Nullability) → text_or_null_fits n (option_copied text.entry) ≡ true →
            text_or_null_fits m (option_copied pattern.entry) ≡ true → IfOk result (λ t. truth_fits (union n m) t ≡ true) }
        ensures last { IsLastIfAny self.now.case_insensitive last.new }
    {
        match (text, pattern) {
            (Some(text), Some(pattern)) => {
                let made = pattern_for(alloc, last.take(), pattern, self.case_insensitive)?;
                let found = made.pattern.matches(alloc, text)?;
                *last = Some(made);
                Ok(Some(inverted_if(self.negated, found)))
            }
            _ => Ok(None),
        }
    }

    /// The answers of two columns' values, row by row.
    fn truths(&self, alloc: Global, c: &ColumnRef, pattern: &ColumnRef) -> Mem<Truths>
        requires lengths { length c.now.rows ≡ length pattern.now.rows }
        requires left { c.now.ty ≡ text_ty self.now.left }
        requires right { pattern.now.ty ≡ text_ty self.now.right }
        ensures fit { IfOk result (λ truths. truths_fit (union self.now.left self.now.right) truths ≡ true) }
        ensures values { IfOk result (λ truths. vals_of truths ≡
            zip_rows (like3 self.now.negated self.now.case_insensitive) c.now.rows pattern.now.rows) }
    {
        let mut truths = Vec::with_capacity(alloc, c.len())?;
        let mut last = None;
        for i in 0..c.len() {
            let truth = self.truth(alloc, c.text_at(i), pattern.text_at(i), &mut last)?;
            truths.push(truth)?;
        }
        Truths::from_options(alloc, truths.as_slice())
    }
}

/// Whether the text matches the pattern, row by row, inverted where this is negated; null where a side is null. In a pattern `%` matches
/// any run of characters, `_` one character, `\` makes the next character stand for itself, and a last `\` stands for itself. Where the
/// match is case-insensitive, it folds ASCII letters alone.
pub fn like(
    alloc: Global,
    c: &ColumnRef,
    pattern: &ColumnRef,
    negated: bool,
    case_insensitive: bool,
) -> Mem<ColumnRef>
    requires text { is_text_ty c.now.ty ≡ true }
    requires pattern { is_text_ty pattern.now.ty ≡ true }
    requires lengths { length c.now.rows ≡ length pattern.now.rows }
    ensures dtype { IfOk result (λ made. made.ty ≡ bool_ty (union (nullability_of c.now.ty) (nullability_of pattern.now.ty))) }
    ensures rows { IfOk result (λ made. made.rows ≡ zip_rows (like3 negated case_insensitive) c.now.rows pattern.now.rows) }
{
    let left = c.dtype().nullability();
    let right = pattern.dtype().nullability();
    let nullability = left.union(right);
    let matching = Matching {
        negated,
        case_insensitive,
        left,
        right,
    };
    match (c.constant_value(), pattern.constant_value()) {
        (Some(text), Some(pattern)) => {
            let mut last = None;
            let truth = matching.truth(alloc, text_of(text), text_of(pattern), &mut last)?;
            let dtype = DType::Bool(nullability);
            Ok(ColumnRef::of_constant(dtype, of_truth(truth), c.len()))
        }
        _ => {
            let truths = matching.truths(alloc, c, pattern)?;
            ColumnRef::from_truths(alloc, truths, nullability)
        }
    }
}
