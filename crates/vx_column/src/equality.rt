// Equality and hash of columns: by their types and the values at their rows, whatever parts the rows are kept in.
ghost use Rattle.std.specs.Prelude.{◌≡◌, ◌<◌, true, length, Decides, fold};
ghost use Rattle.std.specs.Cmp.{partial_equiv_from_equiv};
ghost use Rattle.std.specs.List.{All, AllZip, flat_map};
ghost use Rattle.std.proofs.Common.{ap};
ghost use Rattle.vx_dtype.specs.Fits.{fits};
ghost use Rattle.vx_dtype.specs.declared.Nullability.TheVariants.{Nullable};
ghost use Rattle.vx_dtype.specs.TypeRules.{with_nullability};
ghost use Rattle.vx_dtype.specs.RawViews.{raw_view};
ghost use Rattle.vx_column.specs.Columns.{row_at, rows_fit};
ghost use Rattle.vx_column.specs.StructColumns.{column_types};
ghost use Rattle.vx_column.specs.ColumnEqual.{column_eq, column_feed, val_feed};
ghost use Rattle.vx_column.specs.ColumnEqualLaws.{column_eq_equiv, column_decides};
ghost use Rattle.vx_column.specs.Cells.{HasFit, HasAt, SameAt, AreStructsOf, fields_feed, masks_apart};

use crate::cells::{Cells, column_in, columns_in, is_hidden, numbers_in, truths_in, values_in};
use crate::columns::ColumnRef;
use crate::fields::parts_of;
use crate::numbers::of_number;
use crate::plain_values::{is_null_value, null, of_truth};
use std::hash::{Hash, Hasher};
use vx_dtype::ScalarValue;

/// Whether a column has this value of its type at a row.
#[cycle(has)]
fn has_at(column: &ColumnRef, i: usize, value: &ScalarValue) -> bool
    requires row { i < length column.now.rows }
    requires fit { fits (raw_view value.now) column.now.ty ≡ true }
    ensures { Decides result (HasAt i column.now value.now) }
{
    match column.cells() {
        Cells::Constant { value: own, .. } => own == value,
        Cells::Rows(rows) => {
            let values = values_in(rows);
            &values[i] == value
        }
        Cells::Truths(truths) => {
            let own = of_truth(truths_in(truths).truth_at(i));
            &own == value
        }
        Cells::Numbers(numbers) => {
            let own = of_number(numbers_in(numbers).number_at(i));
            &own == value
        }
        Cells::Columns { fields, .. } => match parts_of(value) {
            Some(parts) => have_at(columns_in(fields), i, parts),
            None => false,
        },
        Cells::Masked { column, nulls } => {
            if is_hidden(nulls, i) {
                return is_null_value(value);
            }
            !is_null_value(value) && has_at(column_in(column), i, value)
        }
    }
}

/// Whether each column has the value of its place at a row.
#[cycle(has)]
fn have_at(columns: &[ColumnRef], i: usize, values: &[ScalarValue]) -> bool
    requires rows { All (λ c. i < length c.rows) columns.now }
    requires fit { AllZip HasFit columns.now values.now }
    ensures { Decides result (AllZip (HasAt i) columns.now values.now) }
{
    for k in 0..columns.len() {
        if !has_at(&columns[k], i, &values[k]) {
            return false;
        }
    }
    true
}

/// Whether two columns of one type have the same value at a row.
#[cycle(same)]
fn same_at(left: &ColumnRef, right: &ColumnRef, i: usize) -> bool
    requires types { left.now.ty ≡ right.now.ty }
    requires left { i < length left.now.rows }
    requires right { i < length right.now.rows }
    ensures { Decides result (SameAt i left.now right.now) }
{
    match left.cells() {
        Cells::Constant { value, .. } => has_at(right, i, value),
        Cells::Rows(rows) => {
            let values = values_in(rows);
            has_at(right, i, &values[i])
        }
        Cells::Truths(truths) => {
            let own = of_truth(truths_in(truths).truth_at(i));
            has_at(right, i, &own)
        }
        Cells::Numbers(numbers) => {
            let own = of_number(numbers_in(numbers).number_at(i));
            has_at(right, i, &own)
        }
        Cells::Columns { fields, .. } => has_struct(right, left, columns_in(fields), i),
        Cells::Masked { column, nulls } => {
            if is_hidden(nulls, i) {
                return !right.is_valid(i);
            }
            has_inner(right, column_in(column), i)
        }
    }
}

/// Whether a column has the value of another at a row, where the other is kept as the columns of its fields.
#[cycle(same)]
fn has_struct(column: &ColumnRef, structs: &ColumnRef, fields: &[ColumnRef], i: usize) -> bool
    requires types { structs.now.ty ≡ column.now.ty }
    requires column { i < length column.now.rows }
    requires structs { i < length structs.now.rows }
    requires kept { AreStructsOf structs.now fields.now }
    ensures { Decides result (SameAt i structs.now column.now) }
{
    match column.cells() {
        Cells::Constant { value, .. } => has_at(structs, i, value),
        Cells::Rows(rows) => {
            let values = values_in(rows);
            has_at(structs, i, &values[i])
        }
        Cells::Columns { fields: others, .. } => same_fields(fields, columns_in(others), i),
        _ => unreachable!(),
    }
}

/// Whether columns of the same types have the same values at a row, one by one.
#[cycle(same)]
fn same_fields(left: &[ColumnRef], right: &[ColumnRef], i: usize) -> bool
    requires types { column_types left.now ≡ column_types right.now }
    requires left { All (λ c. i < length c.rows) left.now }
    requires right { All (λ c. i < length c.rows) right.now }
    ensures { Decides result (AllZip (SameAt i) left.now right.now) }
{
    for k in 0..left.len() {
        if !same_at(&left[k], &right[k], i) {
            return false;
        }
    }
    true
}

/// Whether a column of a nullable type has at a row the value that another has of the type that isn't nullable.
#[cycle(same)]
fn has_inner(column: &ColumnRef, inner: &ColumnRef, i: usize) -> bool
    requires types { column.now.ty ≡ with_nullability inner.now.ty Nullable }
    requires apart { masks_apart inner.now.ty ≡ true }
    requires fit { rows_fit inner.now.ty inner.now.rows ≡ true }
    requires column { i < length column.now.rows }
    requires inner { i < length inner.now.rows }
    ensures { Decides result (SameAt i inner.now column.now) }
{
    match column.cells() {
        Cells::Constant { value, .. } => !is_null_value(value) && has_at(inner, i, value),
        Cells::Rows(rows) => {
            let values = values_in(rows);
            !is_null_value(&values[i]) && has_at(inner, i, &values[i])
        }
        Cells::Masked {
            column: other,
            nulls,
        } => { !is_hidden(nulls, i) && same_at(inner, column_in(other), i) }
        _ => unreachable!(),
    }
}

/// Whether two columns of one type have the same rows.
fn same(left: &ColumnRef, right: &ColumnRef) -> bool
    requires { left.now.ty ≡ right.now.ty }
    ensures { Decides result (left.now.rows ≡ right.now.rows) }
{
    if left.len() != right.len() {
        return false;
    }
    for i in 0..left.len() {
        if !same_at(left, right, i) {
            return false;
        }
    }
    true
}

impl PartialEq for ColumnRef {
    ghost eq = { column_eq };

    ghost laws = { partial_equiv_from_equiv column_eq_equiv };

    #[tactic(auto, using(crate::specs::ColumnEqualLaws::column_decides))]
    fn eq(&self, other: &ColumnRef) -> bool
        ensures gives { result ≡ column_eq self.now other.now }
        ensures same { Decides result (self.now ≡ other.now) }
    {
        self.dtype() == other.dtype() && same(self, other)
    }
}

impl Eq for ColumnRef {
    ghost laws = { column_eq_equiv };
}

/// Takes in the value at a row of a column.
#[cycle(feed)]
fn feed_at<H: Hasher>(column: &ColumnRef, i: usize, state: &mut H)
    requires { i < length column.now.rows }
    ensures { state.new ≡ fold H.write state.old (val_feed (row_at column.now i)) }
{
    match column.cells() {
        Cells::Constant { value, .. } => value.hash(state),
        Cells::Rows(rows) => {
            let values = values_in(rows);
            values[i].hash(state);
        }
        Cells::Truths(truths) => of_truth(truths_in(truths).truth_at(i)).hash(state),
        Cells::Numbers(numbers) => of_number(numbers_in(numbers).number_at(i)).hash(state),
        Cells::Columns { fields, .. } => {
            state.write_u8(5);
            feed_fields(columns_in(fields), i, state);
        }
        Cells::Masked { column, nulls } => {
            if is_hidden(nulls, i) {
                null().hash(state);
            } else {
                feed_at(column_in(column), i, state);
            }
        }
    }
}

/// Takes in the members of a struct of the columns' values at a row.
#[cycle(feed)]
fn feed_fields<H: Hasher>(columns: &[ColumnRef], i: usize, state: &mut H)
    requires { All (λ c. i < length c.rows) columns.now }
    ensures { state.new ≡ fold H.write state.old (fields_feed columns.now i) }
{
    for k in 0..columns.len() {
        state.write_u8(1);
        feed_at(&columns[k], i, state);
    }
    state.write_u8(0);
}

/// Takes in the value at each row.
fn feed_rows<H: Hasher>(column: &ColumnRef, state: &mut H)
    ensures { state.new ≡ fold H.write state.old (flat_map val_feed column.now.rows) }
{
    for i in 0..column.len() {
        feed_at(column, i, state);
    }
}

impl Hash for ColumnRef {
    ghost hash_input = { column_feed };

    ghost respects_eq = { λ x y e. ap column_feed ((column_decides x y).0 e) };

    fn hash<H: Hasher>(&self, state: &mut H) {
        self.dtype().hash(state);
        state.write_usize(self.len());
        feed_rows(self, state);
    }
}
