// Work on two columns row by row.
ghost use Rattle.std.specs.Prelude.{◌≡◌, true, length, IfOk};
ghost use Rattle.vx_dtype.specs.Fits.{fits};
ghost use Rattle.vx_dtype.specs.RawViews.{raw_view};
ghost use Rattle.vx_dtype.specs.Types.{bool_ty};
ghost use Rattle.vx_words.specs.Words.{truth_val};
ghost use Rattle.vx_words.specs.Truths.{vals_of};
ghost use Rattle.vx_column.specs.RawParts.{truth_fits};
ghost use Rattle.vx_column.specs.Columns.{seen, zip_rows};
ghost use Rattle.vx_column.specs.ColumnParts.{keeps_values, truths_fit};

use std::alloc::Global;
use vx_column::{ColumnRef, of_truth};
use vx_dtype::{DType, Mem, Nullability, ScalarValue};
use vx_words::Truths;

/// A rule that makes a truth of two values.
pub(crate) trait TruthRule {
    ghost use Rattle.vx_dtype.specs.declared.Nullability.{Nullability};
    ghost use Rattle.vx_dtype.specs.Types.{Ty};
    ghost use Rattle.vx_dtype.specs.Values.{Val};

    /// The types of the two values, and whether the truth may be null.
    ghost left: { Self → Ty };

    ghost right: { Self → Ty };

    ghost nullability: { Self → Nullability };

    /// What the rule makes of two values.
    ghost rule: { Self → Val → Val → Val };

    /// The truth that is made of two values.
    fn at(&self, l: &ScalarValue, r: &ScalarValue) -> Option<bool>
        requires left { fits (raw_view l.now) (left self.now) ≡ true }
        requires right { fits (raw_view r.now) (right self.now) ≡ true }
        ensures fit { truth_fits (nullability self.now) result ≡ true }
        ensures value { truth_val result ≡ rule self.now (seen (left self.now) l.now) (seen (right self.now) r.now) };
}

/// What a rule makes of two columns' values, row by row.
pub(crate) fn zip_truths<R: TruthRule>(
    alloc: Global,
    rule: &R,
    l: &ColumnRef,
    r: &ColumnRef,
) -> Mem<Truths>
    requires lengths { length l.now.rows ≡ length r.now.rows }
    requires left { l.now.ty ≡ R.left rule.now }
    requires right { r.now.ty ≡ R.right rule.now }
    requires left_kept { keeps_values l.now.ty ≡ true }
    requires right_kept { keeps_values r.now.ty ≡ true }
    ensures fit { IfOk result (λ truths. truths_fit (R.nullability rule.now) truths ≡ true) }
    ensures values { IfOk result (λ truths. vals_of truths ≡ zip_rows (R.rule rule.now) l.now.rows r.now.rows) }
{
    let mut truths = Vec::with_capacity(alloc, l.len())?;
    for i in 0..l.len() {
        let left = l.value_at(i);
        let right = r.value_at(i);
        truths.push(rule.at(left.get(), right.get()))?;
    }
    Truths::from_options(alloc, truths.as_slice())
}

/// What a rule makes of two columns, row by row. The rule is of the columns' types, and makes truths of this nullability.
#[tactic(auto, unfolding(vx_dtype::specs::TypeRules::no_name_twice))]
pub(crate) fn zip_columns<R: TruthRule>(
    alloc: Global,
    rule: &R,
    nullability: Nullability,
    l: &ColumnRef,
    r: &ColumnRef,
) -> Mem<ColumnRef>
    requires lengths { length l.now.rows ≡ length r.now.rows }
    requires left { l.now.ty ≡ R.left rule.now }
    requires right { r.now.ty ≡ R.right rule.now }
    requires left_kept { keeps_values l.now.ty ≡ true }
    requires right_kept { keeps_values r.now.ty ≡ true }
    requires made { nullability ≡ R.nullability rule.now }
    ensures dtype { IfOk result (λ c. c.ty ≡ bool_ty nullability) }
    ensures rows { IfOk result (λ c. c.rows ≡ zip_rows (R.rule rule.now) l.now.rows r.now.rows) }
{
    match (l.constant_value(), r.constant_value()) {
        (Some(x), Some(y)) => {
            let truth = rule.at(x, y);
            let dtype = DType::Bool(nullability);
            Ok(ColumnRef::of_constant(dtype, of_truth(truth), l.len()))
        }
        _ => {
            let truths = zip_truths(alloc, rule, l, r)?;
            ColumnRef::from_truths(alloc, truths, nullability)
        }
    }
}
