// Reading the rows of columns, whatever parts they are kept in.
ghost use Rattle.std.specs.Prelude.{◌≡◌, ◌<◌, true, length, OnErr, IfOk, IfSome, option_copied};
ghost use Rattle.std.specs.List.{All, AllZip};
ghost use Rattle.std.proofs.Math.ListN.{replicate};
ghost use Rattle.vx_dtype.specs.declared.Nullability.TheVariants.{Nullable};
ghost use Rattle.vx_dtype.specs.declared.Nullability.{Nullability};
ghost use Rattle.vx_dtype.specs.declared.PType.{PType};
ghost use Rattle.vx_dtype.specs.Types.{Ty, int_ty};
ghost use Rattle.vx_dtype.specs.Fits.{fits};
ghost use Rattle.vx_dtype.specs.RawViews.{raw_view};
ghost use Rattle.vx_dtype.specs.TypeRules.{is_bool_ty, is_int_ty, is_text_ty, nullability_of, with_nullability};
ghost use Rattle.vx_column.specs.Columns.{AppendsRows, column, row_at, values_fit, seen, seen_rows};
ghost use Rattle.vx_column.specs.StructColumns.{StandsAt};
ghost use Rattle.vx_column.specs.Cells.{masks_apart};
ghost use Rattle.vx_column.specs.ColumnParts.{keeps_values, truths_fit};
ghost use Rattle.vx_column.specs.PlainValues.{number_val, text_or_null, text_or_null_fits};
ghost use Rattle.vx_column.specs.RowValues.{shown};
ghost use Rattle.vx_words.specs.Truths.{vals_of};
ghost use Rattle.vx_words.specs.Words.{truth_val};

use crate::cells::{Cells, column_in, columns_in, is_hidden, numbers_in, truths_in, values_in};
use crate::columns::ColumnRef;
use crate::numbers::{number_of, of_number};
use crate::plain_values::{null, of_truth, text_of, truth_of};
use crate::structs::struct_of;
use std::alloc::Global;
use std::rc::Rc;
use vx_dtype::{Mem, Nullability, ScalarValue};
use vx_words::Truths;

/// The value at a row of a column: one that the column keeps, or one that is made of what it keeps.
#[derive(Drop)]
pub enum RowValue<'a> {
    /// One that the column keeps.
    Kept(&'a ScalarValue),
    /// One that is made of what the column keeps.
    Made(ScalarValue),
}

impl RowValue<'_> {
    /// The value.
    pub fn get(&self) -> &ScalarValue
        ensures { result.now ≡ shown self.now }
    {
        match self {
            RowValue::Kept(value) => value,
            RowValue::Made(value) => value,
        }
    }
}

impl ColumnRef {
    /// The value at this row, counted from 0, of a column whose type is no struct's. It takes no memory.
    pub fn value_at(&self, i: usize) -> RowValue<'_>
        requires kept { keeps_values self.now.ty ≡ true }
        requires row { i < length self.now.rows }
        ensures value { seen self.now.ty (shown result) ≡ row_at self.now i }
        ensures fit { fits (raw_view (shown result)) self.now.ty ≡ true }
    {
        match self.cells() {
            Cells::Constant { value, .. } => RowValue::Kept(value),
            Cells::Rows(rows) => {
                let values = values_in(rows);
                RowValue::Kept(&values[i])
            }
            Cells::Truths(truths) => RowValue::Made(of_truth(truths_in(truths).truth_at(i))),
            Cells::Numbers(numbers) => RowValue::Made(of_number(numbers_in(numbers).number_at(i))),
            Cells::Columns { .. } => unreachable!(),
            Cells::Masked { column, nulls } => {
                if is_hidden(nulls, i) {
                    return RowValue::Made(null());
                }
                RowValue::Kept(column_in(column).kept_at(i))
            }
        }
    }

    /// The value at a row of a column that keeps it, as those do that are masked by truths beside them.
    fn kept_at(&self, i: usize) -> &ScalarValue
        requires kept { keeps_values self.now.ty ≡ true }
        requires apart { masks_apart self.now.ty ≡ true }
        requires row { i < length self.now.rows }
        ensures value { seen self.now.ty result.now ≡ row_at self.now i }
        ensures fit { fits (raw_view result.now) self.now.ty ≡ true }
    {
        match self.cells() {
            Cells::Constant { value, .. } => value,
            Cells::Rows(rows) => {
                let values = values_in(rows);
                &values[i]
            }
            _ => unreachable!(),
        }
    }

    /// The text at a row of a column of texts, counted from 0; none where the row is null.
    pub fn text_at(&self, i: usize) -> Option<&str>
        requires text { is_text_ty self.now.ty ≡ true }
        requires row { i < length self.now.rows }
        ensures value { text_or_null (option_copied result) ≡ row_at self.now i }
        ensures fit { text_or_null_fits (nullability_of self.now.ty) (option_copied result) ≡ true }
    {
        match self.cells() {
            Cells::Constant { value, .. } => text_of(value),
            Cells::Rows(rows) => {
                let values = values_in(rows);
                text_of(&values[i])
            }
            Cells::Masked { column, nulls } => {
                if is_hidden(nulls, i) {
                    return None;
                }
                text_of(column_in(column).kept_at(i))
            }
            _ => unreachable!(),
        }
    }

    /// The truth at a row of a column of truths, counted from 0; none where the row is null.
    pub fn truth_at(&self, i: usize) -> Option<bool>
        requires truths { is_bool_ty self.now.ty ≡ true }
        requires row { i < length self.now.rows }
        ensures { truth_val result ≡ row_at self.now i }
    {
        match self.cells() {
            Cells::Constant { value, .. } => truth_of(value),
            Cells::Truths(truths) => truths_in(truths).truth_at(i),
            _ => unreachable!(),
        }
    }

    /// The number at a row of a column of an integer type, and none of null.
    pub(crate) fn number_at(&self, i: usize) -> Option<i128>
        requires numbers { is_int_ty self.now.ty ≡ true }
        requires row { i < length self.now.rows }
        ensures { (p : PType) (n : Nullability) → self.now.ty ≡ int_ty p n → number_val p result ≡ row_at self.now i }
    {
        match self.cells() {
            Cells::Constant { value, .. } => number_of(value),
            Cells::Numbers(numbers) => numbers_in(numbers).number_at(i),
            _ => unreachable!(),
        }
    }

    /// The truths at the rows of a boolean column, in order, null where a row is. They are those that the column keeps, but for a column that is
    /// kept as one value: then they are made, a truth for each row.
    pub fn truths(&self, alloc: Global) -> Mem<Rc<Truths>>
        requires { is_bool_ty self.now.ty ≡ true }
        ensures rows { IfOk result (λ ts. vals_of ts.value ≡ self.now.rows) }
        ensures fit { IfOk result (λ ts. truths_fit (nullability_of self.now.ty) ts.value ≡ true) }
    {
        truths_of(alloc, self)
    }

    /// The value of all rows, where the column is kept as one value; none where it is kept in another way, also if all rows have one value.
    pub fn constant_value(&self) -> Option<&ScalarValue>
        ensures value { IfSome (option_copied result) (λ x. self.now.rows ≡ replicate (length self.now.rows) (seen self.now.ty x)) }
        ensures fit { IfSome (option_copied result) (λ x. fits (raw_view x) self.now.ty ≡ true) }
    {
        match self.cells() {
            Cells::Constant { value, .. } => Some(value),
            _ => None,
        }
    }

    /// Puts the values of all rows at the end of a list, in order. They are values of the column's type. Where memory runs out
    /// the list is as it was.
    pub fn append_to(&self, alloc: Global, values: &mut Vec<ScalarValue>) -> Mem<()>
        ensures rows { IfOk result (λ _. AppendsRows self.now values.old.items values.new.items) }
        ensures kept { OnErr result (values.new.items ≡ values.old.items) }
    {
        match self.cells() {
            Cells::Constant { value, len } => append_repeated(value, *len, values),
            Cells::Rows(rows) => append_clones(values_in(rows), values),
            _ => append_made(alloc, self, values),
        }
    }

    /// The values at all rows.
    pub(crate) fn made_rows(&self, alloc: Global) -> Mem<Vec<ScalarValue>>
        ensures fit { IfOk result (λ xs. values_fit self.now.ty xs.items ≡ true) }
        ensures rows { IfOk result (λ xs. seen_rows self.now.ty xs.items ≡ self.now.rows) }
    {
        let mut rows = Vec::new(alloc);
        self.append_to(alloc, &mut rows)?;
        Ok(rows)
    }

    /// The column with its type made nullable.
    pub fn made_nullable(&self, alloc: Global) -> Mem<ColumnRef>
        ensures { IfOk result (λ c. c ≡ column (with_nullability self.now.ty Nullable) self.now.rows) }
    {
        let dtype = self.dtype().with_nullability(Nullability::Nullable)?;
        match self.cells() {
            Cells::Constant { value, len } => {
                Ok(ColumnRef::of_constant(dtype, value.clone()?, *len))
            }
            Cells::Truths(truths) => Ok(ColumnRef::of_shared_truths(dtype, truths.clone()?)),
            Cells::Numbers(numbers) => Ok(ColumnRef::of_shared_numbers(dtype, numbers.clone()?)),
            Cells::Rows(_) => masked_nowhere(alloc, self),
            Cells::Columns { .. } => masked_nowhere(alloc, self),
            Cells::Masked { .. } => Ok(self.clone()?),
        }
    }
}

/// A column of a type that isn't nullable, with its type made nullable: it is masked nowhere.
fn masked_nowhere(alloc: Global, c: &ColumnRef) -> Mem<ColumnRef>
    requires { masks_apart c.now.ty ≡ true }
    ensures { IfOk result (λ made. made ≡ column (with_nullability c.now.ty Nullable) c.now.rows) }
{
    let nulls = Truths::repeated(alloc, Some(false), c.len())?;
    ColumnRef::of_masked(alloc, c.clone()?, Rc::new(alloc, nulls)?)
}

/// Puts clones of a value at the end of a list.
fn append_repeated(value: &ScalarValue, len: usize, values: &mut Vec<ScalarValue>) -> Mem<()>
    ensures rows { (t : Ty) → fits (raw_view value.now) t ≡ true →
        IfOk result (λ _. AppendsRows (column t (replicate len (seen t value.now))) values.old.items values.new.items) }
    ensures kept { OnErr result (values.new.items ≡ values.old.items) }
{
    values.reserve(len)?;
    values.resize(values.len() + len, value.clone()?)?;
    Ok(())
}

/// Puts clones of values at the end of a list.
fn append_clones(rows: &[ScalarValue], values: &mut Vec<ScalarValue>) -> Mem<()>
    ensures rows { (t : Ty) → values_fit t rows.now ≡ true →
        IfOk result (λ _. AppendsRows (column t (seen_rows t rows.now)) values.old.items values.new.items) }
    ensures kept { OnErr result (values.new.items ≡ values.old.items) }
{
    values.extend_from_slice(rows)?;
    Ok(())
}

/// Puts the values of all rows at the end of a list, each made for itself.
fn append_made(alloc: Global, column: &ColumnRef, values: &mut Vec<ScalarValue>) -> Mem<()>
    ensures rows { IfOk result (λ _. AppendsRows column.now values.old.items values.new.items) }
    ensures kept { OnErr result (values.new.items ≡ values.old.items) }
{
    let mut made = Vec::with_capacity(alloc, column.len())?;
    for i in 0..column.len() {
        made.push(made_at(alloc, column, i)?)?;
    }
    values.append(&mut made)?;
    Ok(())
}

/// The value at a row, made of the fields' values where the column is kept as columns of fields.
#[cycle(made)]
pub(crate) fn made_at(alloc: Global, column: &ColumnRef, i: usize) -> Mem<ScalarValue>
    requires { i < length column.now.rows }
    ensures { IfOk result (λ x. StandsAt i column.now x) }
{
    match column.cells() {
        Cells::Constant { value, .. } => Ok(value.clone()?),
        Cells::Rows(rows) => {
            let values = values_in(rows);
            Ok(values[i].clone()?)
        }
        Cells::Truths(truths) => Ok(of_truth(truths_in(truths).truth_at(i))),
        Cells::Numbers(numbers) => Ok(of_number(numbers_in(numbers).number_at(i))),
        Cells::Columns { fields, .. } => struct_of(alloc, row_of(alloc, columns_in(fields), i)?),
        Cells::Masked { column, nulls } => {
            if is_hidden(nulls, i) {
                return Ok(null());
            }
            made_at(alloc, column_in(column), i)
        }
    }
}

/// The columns' values at a row.
#[cycle(made)]
pub(crate) fn row_of(alloc: Global, fields: &[ColumnRef], i: usize) -> Mem<Vec<ScalarValue>>
    requires { All (λ c. i < length c.rows) fields.now }
    ensures { IfOk result (λ xs. AllZip (StandsAt i) fields.now xs.items) }
{
    let mut row = Vec::with_capacity(alloc, fields.len())?;
    for field in fields {
        row.push(made_at(alloc, field, i)?)?;
    }
    Ok(row)
}

/// The truths at the rows of a column of truths.
pub(crate) fn truths_of(alloc: Global, column: &ColumnRef) -> Mem<Rc<Truths>>
    requires { is_bool_ty column.now.ty ≡ true }
    ensures rows { IfOk result (λ ts. vals_of ts.value ≡ column.now.rows) }
    ensures fit { IfOk result (λ ts. truths_fit (nullability_of column.now.ty) ts.value ≡ true) }
{
    match column.cells() {
        Cells::Constant { value, len } => {
            let truths = Truths::repeated(alloc, truth_of(value), *len)?;
            Ok(Rc::new(alloc, truths)?)
        }
        Cells::Truths(truths) => Ok(truths.clone()?),
        _ => unreachable!(),
    }
}
