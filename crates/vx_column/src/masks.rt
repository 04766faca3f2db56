// Rows that are kept, and rows that are made null.
ghost use Rattle.std.specs.Prelude.{◌≡◌, true, false, length, map, IfOk};
ghost use Rattle.std.proofs.Math.ListN.{replicate};
ghost use Rattle.std.specs.List.{All};
ghost use Rattle.vx_dtype.specs.declared.Nullability.TheVariants.{Nullable};
ghost use Rattle.vx_dtype.specs.TypeRules.{is_bool_ty, is_int_ty, is_nullable, no_name_twice, nullability_of, with_nullability};
ghost use Rattle.vx_dtype.specs.TypeViews.{type_view};
ghost use Rattle.vx_dtype.specs.Fits.{fits};
ghost use Rattle.vx_dtype.specs.RawViews.{raw_view};
ghost use Rattle.vx_words.specs.Truths.{vals_of};
ghost use Rattle.vx_column.specs.Columns.{column, values_fit, seen, seen_rows, kept_rows, true_count, masked, zip_rows};
ghost use Rattle.vx_column.specs.Cells.{kept_column, masks_apart};

use crate::cells::{Cells, column_in, columns_in, numbers_in, truths_in, values_in};
use crate::columns::ColumnRef;
use crate::numbers::numbers_of;
use crate::plain_values::{is_null_value, is_true, null, truth_of};
use crate::reading::truths_of;
use crate::splits::column_of;
use std::alloc::Global;
use std::rc::Rc;
use vx_dtype::{DType, Mem, Nullability, ScalarValue};
use vx_words::Truths;

impl ColumnRef {
    /// The column with the rows made null where the other column is true, and with its type made nullable.
    pub fn mask(&self, alloc: Global, nulls: &ColumnRef) -> Mem<ColumnRef>
        requires mask { is_bool_ty nulls.now.ty ≡ true }
        requires lengths { length self.now.rows ≡ length nulls.now.rows }
        ensures dtype { IfOk result (λ c. c.ty ≡ with_nullability self.now.ty Nullable) }
        ensures rows { IfOk result (λ c. c.rows ≡ zip_rows masked self.now.rows nulls.now.rows) }
    {
        let truths = truths_of(alloc, nulls)?;
        self.masked_by(alloc, truths)
    }

    /// The column with the rows made null where a truth is true, and with its type made nullable.
    pub(crate) fn masked_by(&self, alloc: Global, nulls: Rc<Truths>) -> Mem<ColumnRef>
        requires { length self.now.rows ≡ length nulls.value }
        ensures dtype { IfOk result (λ c. c.ty ≡ with_nullability self.now.ty Nullable) }
        ensures rows { IfOk result (λ c. c.rows ≡ zip_rows masked self.now.rows (vals_of nulls.value)) }
    {
        if masks_apart(self.dtype()) {
            return ColumnRef::of_masked(alloc, self.clone()?, nulls);
        }
        let nullable = self.made_nullable(alloc)?;
        let dtype = nullable.dtype().clone()?;
        match &dtype {
            DType::Bool(_) => {
                let own = truths_of(alloc, &nullable)?;
                let masked = truths_in(&own).mask(alloc, truths_in(&nulls))?;
                ColumnRef::of_truths(alloc, dtype, masked)
            }
            DType::Primitive(_, _) => {
                let own = numbers_of(alloc, &nullable)?;
                let masked = numbers_in(&own).mask(alloc, truths_in(&nulls))?;
                ColumnRef::of_numbers(alloc, dtype, masked)
            }
            _ => masked_again(alloc, &nullable, nulls),
        }
    }

    /// The rows where the other column is true, in order.
    pub fn filter(&self, alloc: Global, keep: &ColumnRef) -> Mem<ColumnRef>
        requires mask { is_bool_ty keep.now.ty ≡ true }
        requires lengths { length self.now.rows ≡ length keep.now.rows }
        ensures dtype { IfOk result (λ c. c.ty ≡ self.now.ty) }
        ensures rows { IfOk result (λ c. c.rows ≡ kept_rows self.now.rows keep.now.rows) }
    {
        let truths = truths_of(alloc, keep)?;
        kept_of(alloc, self, truths_in(&truths))
    }

    /// At how many rows a boolean column is true.
    pub fn true_count(&self) -> usize
        requires { is_bool_ty self.now.ty ≡ true }
        ensures { result ≡ true_count self.now.rows }
    {
        match self.cells() {
            Cells::Constant { value, len } => { if is_true(truth_of(value)) { *len } else { 0 } }
            Cells::Truths(truths) => truths_in(truths).true_count(),
            _ => unreachable!(),
        }
    }
}

/// Whether columns of a type are masked by truths that stand beside them.
fn masks_apart(dtype: &DType) -> bool
    ensures { result ≡ masks_apart (type_view dtype.now) }
{
    match dtype {
        DType::Bool(_) | DType::Primitive(_, _) => false,
        _ => !dtype.is_nullable(),
    }
}

/// A column of a type that is nullable, and neither boolean nor an integer type, with the rows made null where a truth is true.
fn masked_again(alloc: Global, c: &ColumnRef, nulls: Rc<Truths>) -> Mem<ColumnRef>
    requires nullable { is_nullable (nullability_of c.now.ty) ≡ true }
    requires no_truths { is_bool_ty c.now.ty ≡ false }
    requires no_numbers { is_int_ty c.now.ty ≡ false }
    requires lengths { length nulls.value ≡ length c.now.rows }
    ensures { IfOk result (λ made. made ≡ column c.now.ty (zip_rows masked c.now.rows (vals_of nulls.value))) }
{
    match c.cells() {
        Cells::Masked { column, nulls: own } => {
            let either = truths_in(own).or(alloc, truths_in(&nulls))?;
            ColumnRef::of_masked(alloc, column_in(column).clone()?, Rc::new(alloc, either)?)
        }
        Cells::Constant { value, len } => masked_constant(alloc, c.dtype(), value, *len, nulls),
        _ => unreachable!(),
    }
}

/// The column of this many rows of one value, null where a truth is true, of a type that is nullable, and neither boolean nor an integer type.
fn masked_constant(
    alloc: Global,
    dtype: &DType,
    value: &ScalarValue,
    len: usize,
    nulls: Rc<Truths>,
) -> Mem<ColumnRef>
    requires fit { fits (raw_view value.now) (type_view dtype.now) ≡ true }
    requires names { no_name_twice (type_view dtype.now) ≡ true }
    requires nullable { is_nullable (nullability_of (type_view dtype.now)) ≡ true }
    requires no_truths { is_bool_ty (type_view dtype.now) ≡ false }
    requires no_numbers { is_int_ty (type_view dtype.now) ≡ false }
    requires lengths { length nulls.value ≡ len }
    ensures { IfOk result (λ c. c ≡ column (type_view dtype.now)
        (zip_rows masked (replicate len (seen (type_view dtype.now) value.now)) (vals_of nulls.value))) }
{
    if is_null_value(value) {
        return Ok(ColumnRef::of_constant(dtype.clone()?, null(), len));
    }
    let whole = dtype.with_nullability(Nullability::NonNullable)?;
    let constant = ColumnRef::of_constant(whole, value.clone()?, len);
    ColumnRef::of_masked(alloc, constant, nulls)
}

/// The column's rows where a truth is true.
#[cycle(kept)]
fn kept_of(alloc: Global, column: &ColumnRef, keep: &Truths) -> Mem<ColumnRef>
    requires { length column.now.rows ≡ length (vals_of keep.now) }
    ensures { IfOk result (λ c. c ≡ kept_column (vals_of keep.now) column.now) }
{
    let dtype = column.dtype().clone()?;
    match column.cells() {
        Cells::Constant { value, .. } => {
            Ok(ColumnRef::of_constant(dtype, value.clone()?, keep.true_count()))
        }
        Cells::Rows(rows) => {
            let kept = filter_values(alloc, column.dtype(), values_in(rows), keep)?;
            column_of(alloc, dtype, kept)
        }
        Cells::Truths(truths) => {
            let kept = truths_in(truths).filter(alloc, keep)?;
            ColumnRef::of_truths(alloc, dtype, kept)
        }
        Cells::Numbers(numbers) => {
            let kept = numbers_in(numbers).filter(alloc, keep)?;
            ColumnRef::of_numbers(alloc, dtype, kept)
        }
        Cells::Columns { fields, .. } => {
            let kept = kept_fields(alloc, columns_in(fields), keep)?;
            ColumnRef::of_fields(alloc, dtype, kept, keep.true_count())
        }
        Cells::Masked { column, nulls } => {
            let kept = kept_of(alloc, column_in(column), keep)?;
            let nulls = truths_in(nulls).filter(alloc, keep)?;
            ColumnRef::of_masked(alloc, kept, Rc::new(alloc, nulls)?)
        }
    }
}

/// The columns' rows where a truth is true.
#[cycle(kept)]
fn kept_fields(alloc: Global, fields: &[ColumnRef], keep: &Truths) -> Mem<Vec<ColumnRef>>
    requires { All (λ c. length c.rows ≡ length (vals_of keep.now)) fields.now }
    ensures { IfOk result (λ cs. cs.items ≡ map (kept_column (vals_of keep.now)) fields.now) }
{
    let mut kept = Vec::with_capacity(alloc, fields.len())?;
    for field in fields {
        kept.push(kept_of(alloc, field, keep)?)?;
    }
    Ok(kept)
}

/// The values of a type where a truth is true.
fn filter_values(
    alloc: Global,
    dtype: &DType,
    values: &[ScalarValue],
    keep: &Truths,
) -> Mem<Vec<ScalarValue>>
    requires lengths { length values.now ≡ length keep.now }
    requires values { values_fit (type_view dtype.now) values.now ≡ true }
    ensures fit { IfOk result (λ vs. values_fit (type_view dtype.now) vs.items ≡ true) }
    ensures values { IfOk result (λ vs. seen_rows (type_view dtype.now) vs.items ≡ kept_rows (seen_rows (type_view dtype.now) values.now) (vals_of keep.now)) }
{
    let mut kept = Vec::new(alloc);
    let mut from = 0;
    let places = keep.len();
    'kept: while let Some(i) = keep.next_true(from) {
        prove!(i < places);
        kept.push(values[i].clone()?)?;
        from = i + 1;
    }
    Ok(kept)
}
