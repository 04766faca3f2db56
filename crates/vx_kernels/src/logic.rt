// Kleene's logic on boolean columns.
ghost use Rattle.std.specs.Prelude.{◌≡◌, true, length, map, IfOk};
ghost use Rattle.vx_dtype.specs.declared.Nullability.{Nullability};
ghost use Rattle.vx_dtype.specs.declared.Nullability.TheVariants.{NonNullable};
ghost use Rattle.vx_dtype.specs.Types.{bool_ty};
ghost use Rattle.vx_dtype.specs.TypeRules.{is_bool_ty, nullability_of, union};
ghost use Rattle.vx_dtype.specs.Logic.{and3, or3, not3, is_null3};
ghost use Rattle.vx_words.specs.Words.{truth_val};
ghost use Rattle.vx_words.specs.Truths.{vals_of};
ghost use Rattle.vx_column.specs.Columns.{zip_rows};
ghost use Rattle.vx_kernels.specs.Connectives.{connected3};
ghost use Rattle.vx_column.specs.RawParts.{truth_fits};

use std::alloc::Global;
use std::rc::Rc;
use vx_column::{ColumnParts, ColumnRef, is_null_value, of_truth, truth_of};
use vx_dtype::{DType, Mem, Nullability};
use vx_words::Truths;

/// False where a side is false, true where both are true, else unknown.
fn and_truth(l: Option<bool>, r: Option<bool>) -> Option<bool>
    ensures value { truth_val result ≡ and3 (truth_val l) (truth_val r) }
    ensures fit { (n m : Nullability) → truth_fits n l ≡ true → truth_fits m r ≡ true → truth_fits (union n m) result ≡ true }
{
    match (l, r) {
        (Some(false), _) => Some(false),
        (_, Some(false)) => Some(false),
        (Some(true), Some(true)) => Some(true),
        _ => None,
    }
}

/// True where a side is true, false where both are false, else unknown.
fn or_truth(l: Option<bool>, r: Option<bool>) -> Option<bool>
    ensures value { truth_val result ≡ or3 (truth_val l) (truth_val r) }
    ensures fit { (n m : Nullability) → truth_fits n l ≡ true → truth_fits m r ≡ true → truth_fits (union n m) result ≡ true }
{
    match (l, r) {
        (Some(true), _) => Some(true),
        (_, Some(true)) => Some(true),
        (Some(false), Some(false)) => Some(false),
        _ => None,
    }
}

/// Nullable where the type of one of the two columns is.
pub(crate) fn union_of(l: &ColumnRef, r: &ColumnRef) -> Nullability
    ensures { result ≡ union (nullability_of l.now.ty) (nullability_of r.now.ty) }
{
    l.dtype().nullability().union(r.dtype().nullability())
}

/// A connective of Kleene's logic.
#[derive(Clone, Copy, PartialEq, Eq, Debug)]
pub(crate) enum Connective {
    And,
    Or,
}

impl Connective {
    /// What it makes of two truths.
    fn truth(self, l: Option<bool>, r: Option<bool>) -> Option<bool>
        ensures value { truth_val result ≡ connected3 self (truth_val l) (truth_val r) }
        ensures fit { (n m : Nullability) → truth_fits n l ≡ true → truth_fits m r ≡ true → truth_fits (union n m) result ≡ true }
    {
        match self {
            Connective::And => and_truth(l, r),
            Connective::Or => or_truth(l, r),
        }
    }

    /// What it makes of two lists of truths, place by place.
    #[tactic(auto, using(vx_column::proofs::TruthLemmas::zipped_rows))]
    fn truths(self, alloc: Global, l: &Truths, r: &Truths) -> Mem<Truths>
        requires { length r.now ≡ length l.now }
        ensures { IfOk result (λ truths. vals_of truths ≡ zip_rows (connected3 self) (vals_of l.now) (vals_of r.now)) }
    {
        match self {
            Connective::And => l.and(alloc, r),
            Connective::Or => l.or(alloc, r),
        }
    }

    /// What it makes of two boolean columns, row by row.
    #[tactic(auto, unfolding(vx_dtype::specs::TypeRules::no_name_twice))]
    fn columns(self, alloc: Global, l: &ColumnRef, r: &ColumnRef) -> Mem<ColumnRef>
        requires left { is_bool_ty l.now.ty ≡ true }
        requires right { is_bool_ty r.now.ty ≡ true }
        requires lengths { length l.now.rows ≡ length r.now.rows }
        ensures dtype { IfOk result (λ c. c.ty ≡ bool_ty (union (nullability_of l.now.ty) (nullability_of r.now.ty))) }
        ensures rows { IfOk result (λ c. c.rows ≡ zip_rows (connected3 self) l.now.rows r.now.rows) }
    {
        let nullability = union_of(l, r);
        match (l.constant_value(), r.constant_value()) {
            (Some(x), Some(y)) => {
                let truth = self.truth(truth_of(x), truth_of(y));
                let dtype = DType::Bool(nullability);
                Ok(ColumnRef::of_constant(dtype, of_truth(truth), l.len()))
            }
            _ => {
                let left = l.truths(alloc)?;
                let right = r.truths(alloc)?;
                let made = self.truths(alloc, truths_in(&left), truths_in(&right))?;
                ColumnRef::from_truths(alloc, made, nullability)
            }
        }
    }
}

/// The truths that are shared.
fn truths_in(truths: &Rc<Truths>) -> &Truths
    ensures { result.now ≡ truths.now.value }
{
    truths
}

/// Whether both sides hold, row by row, by Kleene's logic: false beside anything is false, true beside true is true, all else is null.
pub fn and_kleene(alloc: Global, l: &ColumnRef, r: &ColumnRef) -> Mem<ColumnRef>
    requires left { is_bool_ty l.now.ty ≡ true }
    requires right { is_bool_ty r.now.ty ≡ true }
    requires lengths { length l.now.rows ≡ length r.now.rows }
    ensures dtype { IfOk result (λ c. c.ty ≡ bool_ty (union (nullability_of l.now.ty) (nullability_of r.now.ty))) }
    ensures rows { IfOk result (λ c. c.rows ≡ zip_rows and3 l.now.rows r.now.rows) }
{
    Connective::And.columns(alloc, l, r)
}

/// Whether one side holds, row by row, by Kleene's logic: true beside anything is true, false beside false is false, all else is null.
pub fn or_kleene(alloc: Global, l: &ColumnRef, r: &ColumnRef) -> Mem<ColumnRef>
    requires left { is_bool_ty l.now.ty ≡ true }
    requires right { is_bool_ty r.now.ty ≡ true }
    requires lengths { length l.now.rows ≡ length r.now.rows }
    ensures dtype { IfOk result (λ c. c.ty ≡ bool_ty (union (nullability_of l.now.ty) (nullability_of r.now.ty))) }
    ensures rows { IfOk result (λ c. c.rows ≡ zip_rows or3 l.now.rows r.now.rows) }
{
    Connective::Or.columns(alloc, l, r)
}

/// True and false exchanged; null stays.
fn not_truth(truth: Option<bool>) -> Option<bool>
    ensures value { truth_val result ≡ not3 (truth_val truth) }
    ensures fit { (n : Nullability) → truth_fits n truth ≡ true → truth_fits n result ≡ true }
{
    match truth {
        Some(b) => Some(!b),
        None => None,
    }
}

/// True and false exchanged, row by row; null stays.
#[tactic(auto, unfolding(vx_dtype::specs::TypeRules::no_name_twice))]
pub fn invert(alloc: Global, c: &ColumnRef) -> Mem<ColumnRef>
    requires { is_bool_ty c.now.ty ≡ true }
    ensures dtype { IfOk result (λ made. made.ty ≡ c.now.ty) }
    ensures rows { IfOk result (λ made. made.rows ≡ map not3 c.now.rows) }
{
    let nullability = c.dtype().nullability();
    if let Some(value) = c.constant_value() {
        let truth = not_truth(truth_of(value));
        let dtype = DType::Bool(nullability);
        return Ok(ColumnRef::of_constant(dtype, of_truth(truth), c.len()));
    }
    let truths = c.truths(alloc)?;
    let made = truths_in(&truths).not(alloc)?;
    ColumnRef::from_truths(alloc, made, nullability)
}

/// Whether the value is null, row by row.
#[tactic(auto, unfolding(vx_dtype::specs::TypeRules::no_name_twice))]
pub fn is_null(alloc: Global, c: &ColumnRef) -> Mem<ColumnRef>
    ensures dtype { IfOk result (λ made. made.ty ≡ bool_ty NonNullable) }
    ensures rows { IfOk result (λ made. made.rows ≡ map is_null3 c.now.rows) }
{
    let nullability = Nullability::NonNullable;
    let dtype = c.dtype();
    if !dtype.is_nullable() {
        let made = DType::Bool(nullability);
        return Ok(ColumnRef::of_constant(made, of_truth(Some(false)), c.len()));
    }
    match c.parts() {
        ColumnParts::Constant(value) => {
            let truth = Some(is_null_value(value));
            let made = DType::Bool(nullability);
            Ok(ColumnRef::of_constant(made, of_truth(truth), c.len()))
        }
        ColumnParts::Truths(truths) => {
            let nulls = truths.is_null(alloc)?;
            ColumnRef::from_truths(alloc, nulls, nullability)
        }
        ColumnParts::Numbers(numbers) => {
            let nulls = numbers.is_null(alloc)?;
            ColumnRef::from_truths(alloc, nulls, nullability)
        }
        ColumnParts::Whole => unreachable!(),
        ColumnParts::Masked(nulls) => {
            let known = nulls.is_null(alloc)?.not(alloc)?;
            let hidden = nulls.and(alloc, &known)?;
            ColumnRef::from_truths(alloc, hidden, nullability)
        }
    }
}
