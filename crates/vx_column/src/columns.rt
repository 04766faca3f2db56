// Columns: a type, and a value of the type at each row.
ghost use Rattle.std.specs.Prelude.{◌≡◌, ◌<◌, true, false, not, length, map, IfOk};
ghost use Rattle.std.proofs.Math.ListN.{replicate};
ghost use Rattle.vx_dtype.specs.declared.Nullability.TheVariants.{Nullable};
ghost use Rattle.vx_dtype.specs.Values.{bool_val, value_of};
ghost use Rattle.vx_dtype.specs.Logic.{is_null3};
ghost use Rattle.vx_dtype.specs.Fits.{fits};
ghost use Rattle.vx_dtype.specs.RawViews.{raw_view};
ghost use Rattle.vx_column.specs.Answers.{AnswersColumn, column_of_raws};
ghost use Rattle.vx_dtype.specs.TypeRules.{no_name_twice, field_names, fields_of, with_nullability};
ghost use Rattle.vx_dtype.specs.TypeViews.{type_view};
ghost use Rattle.vx_column.specs.Columns.{Column, column, row_at, rows_fit, values_fit, seen, seen_rows, masked, zip_rows};
ghost use Rattle.vx_column.specs.Cells.{cell_rows, structs_of, AreFieldsOf, AreValuesOf, ArePartsOf, masks_apart};
ghost use Rattle.vx_column.specs.ColumnParts.{AreNumbersOf, AreTruthsOf};
ghost use Rattle.vx_column.specs.PlainValues.{numbers_vals};
ghost use Rattle.vx_words.specs.Truths.{vals_of};

use crate::cells::{Cells, is_hidden, numbers_in, truths_in};
use crate::errors::ColumnError;
use crate::plain_values::is_null_value;
use crate::reading::made_at;
use crate::splits::column_of;
use std::alloc::{AllocError, Global};
use std::marker::Model;
use std::rc::Rc;
use vx_dtype::{DType, Mem, Nullability, Scalar, ScalarValue};
use vx_numbers::Numbers;
use vx_words::Truths;

/// A column, shared by its clones. It is seen as its type and the list of its row values: each value is one of the type, and no struct in
/// the type has two fields of one name.
#[cycle(columns)]
#[derive(Debug, Drop)]
pub struct ColumnRef {
    dtype: DType,
    cells: Cells,
}

impl Model for ColumnRef {
    ghost use Rattle.std.specs.Prelude.{◌≡◌, true};
    ghost use Rattle.std.proofs.Common.{arith};
    ghost use Rattle.vx_column.specs.Columns.{Column, column};
    ghost use Rattle.vx_column.specs.ValCodes.{coded_column};
    ghost use Rattle.vx_column.specs.TypeSizes.{size_of};
    ghost use Rattle.vx_dtype.specs.TypeRules.{no_name_twice};
    ghost use Rattle.vx_dtype.specs.TypeViews.{type_view};

    ghost Value = { Column };

    ghost coded = { coded_column };

    ghost use Rattle.vx_column.specs.Cells.{cell_rows, ArePartsOf};

    ghost view = { λ c. column (type_view c.dtype) (cell_rows (type_view c.dtype) c.cells) };

    ghost invariant = { λ c. ArePartsOf (type_view c.dtype) c.cells × (no_name_twice (type_view c.dtype) ≡ true) };

    ghost size = { λ c. size_of c.ty };

    ghost use Rattle.vx_column.specs.Sizes.{deep_le-size_of};

    ghost size_decreases = { λ c h. omega (arith, deep_le-size_of (type_view c.dtype) c.cells h.0) };
}

impl ColumnRef {
    /// The column of these truths. It is for truths that are known to be of the type, which is boolean.
    pub(crate) fn of_truths(alloc: Global, dtype: DType, truths: Truths) -> Mem<ColumnRef>
        requires { AreTruthsOf (type_view dtype) truths }
        ensures { IfOk result (λ c. c ≡ column (type_view dtype) (vals_of truths)) }
    {
        Ok(ColumnRef::of_shared_truths(dtype, Rc::new(alloc, truths)?))
    }

    /// The column of these shared truths. It is for truths that are known to be of the type, which is boolean.
    pub(crate) fn of_shared_truths(dtype: DType, truths: Rc<Truths>) -> ColumnRef
        requires { AreTruthsOf (type_view dtype) truths.value }
        ensures { result ≡ column (type_view dtype) (vals_of truths.value) }
    {
        ColumnRef {
            dtype,
            cells: Cells::Truths(truths),
        }
    }

    /// The column of these numbers. It is for numbers that are known to be of the type, which is an integer type.
    pub(crate) fn of_numbers(alloc: Global, dtype: DType, numbers: Numbers) -> Mem<ColumnRef>
        requires { AreNumbersOf (type_view dtype) numbers }
        ensures { IfOk result (λ c. c ≡ column (type_view dtype) (numbers_vals numbers)) }
    {
        Ok(ColumnRef::of_shared_numbers(dtype, Rc::new(alloc, numbers)?))
    }

    /// The column of these shared numbers. It is for numbers that are known to be of the type, which is an integer type.
    pub(crate) fn of_shared_numbers(dtype: DType, numbers: Rc<Numbers>) -> ColumnRef
        requires { AreNumbersOf (type_view dtype) numbers.value }
        ensures { result ≡ column (type_view dtype) (numbers_vals numbers.value) }
    {
        ColumnRef {
            dtype,
            cells: Cells::Numbers(numbers),
        }
    }

    /// The column of these shared values. It is for values that are known to be of the type, which is one of texts or lists that isn't nullable.
    pub(crate) fn of_shared(dtype: DType, rows: Rc<Vec<ScalarValue>>) -> ColumnRef
        requires values { AreValuesOf (type_view dtype) rows.value.items }
        requires names { no_name_twice (type_view dtype) ≡ true }
        ensures { result ≡ column (type_view dtype) (seen_rows (type_view dtype) rows.value.items) }
    {
        ColumnRef {
            dtype,
            cells: Cells::Rows(rows),
        }
    }

    /// The column of this many rows of one value, as `constant` makes it, for a value that is known to be of the type, in no struct of which a
    /// name stands twice.
    pub fn of_constant(dtype: DType, value: ScalarValue, len: usize) -> ColumnRef
        requires fit { fits (raw_view value) (type_view dtype) ≡ true }
        requires names { no_name_twice (type_view dtype) ≡ true }
        ensures { result ≡ column (type_view dtype) (replicate len (seen (type_view dtype) value)) }
    {
        ColumnRef {
            dtype,
            cells: Cells::Constant { value, len },
        }
    }

    /// The column of structs of these columns' values, row by row. It is for columns that are known to be those of the type's fields.
    pub(crate) fn of_fields(
        alloc: Global,
        dtype: DType,
        fields: Vec<ColumnRef>,
        len: usize,
    ) -> Mem<ColumnRef>
        requires fields { AreFieldsOf (type_view dtype) fields.items len }
        requires names { no_name_twice (type_view dtype) ≡ true }
        ensures { IfOk result (λ c. c ≡ column (type_view dtype) (structs_of (field_names (fields_of (type_view dtype))) fields.items len)) }
    {
        let fields = Rc::new(alloc, fields)?;
        Ok(ColumnRef {
            dtype,
            cells: Cells::Columns { fields, len },
        })
    }

    /// The column with the rows of another, null where a truth is true. It is for a column of a type that isn't nullable, and neither boolean nor an
    /// integer type.
    pub(crate) fn of_masked(alloc: Global, inner: ColumnRef, nulls: Rc<Truths>) -> Mem<ColumnRef>
        requires apart { masks_apart inner.ty ≡ true }
        requires lengths { length nulls.value ≡ length inner.rows }
        ensures { IfOk result (λ c. c ≡ column (with_nullability inner.ty Nullable) (zip_rows masked inner.rows (vals_of nulls.value))) }
    {
        let dtype = inner.dtype().with_nullability(Nullability::Nullable)?;
        let column = Rc::new(alloc, inner)?;
        Ok(ColumnRef {
            dtype,
            cells: Cells::Masked { column, nulls },
        })
    }

    /// The column of these values, which it keeps. WrongValue exactly where one of them isn't of the type; else DuplicateField exactly
    /// where a name stands twice in a struct of the type, at any depth.
    pub fn of_values(
        alloc: Global,
        dtype: DType,
        values: Vec<ScalarValue>,
    ) -> Result<ColumnRef, ColumnError>
        ensures { AnswersColumn result (column_of_raws (type_view dtype) (map raw_view values.items)) }
    {
        if !all_fit(&dtype, values.as_slice()) {
            return Err(ColumnError::WrongValue);
        }
        if !dtype.has_distinct_names() {
            return Err(ColumnError::DuplicateField);
        }
        Ok(column_of(alloc, dtype, values)?)
    }

    /// The parts that the rows are kept in.
    pub(crate) fn cells(&self) -> &Cells
        ensures rows { cell_rows self.now.ty result.now ≡ self.now.rows }
        ensures parts { ArePartsOf self.now.ty result.now }
    {
        &self.cells
    }

    /// The type. In no struct of it, at any depth, a name stands twice, and each row has a value of it.
    pub fn dtype(&self) -> &DType
        ensures shown { type_view result.now ≡ self.now.ty }
        ensures names { no_name_twice self.now.ty ≡ true }
        ensures fit { rows_fit self.now.ty self.now.rows ≡ true }
    {
        &self.dtype
    }

    /// The value at this row, counted from 0, beside the type.
    pub fn scalar_at(&self, alloc: Global, i: usize) -> Mem<Scalar>
        requires { i < length self.now.rows }
        ensures dtype { IfOk result (λ s. s.ty ≡ self.now.ty) }
        ensures value { IfOk result (λ s. value_of s ≡ row_at self.now i) }
    {
        let value = made_at(alloc, self, i)?;
        Ok(Scalar::new(self.dtype.clone()?, value))
    }

    /// Whether the value at this row, counted from 0, isn't null.
    pub fn is_valid(&self, i: usize) -> bool
        requires { i < length self.now.rows }
        ensures { is_null3 (row_at self.now i) ≡ bool_val (not result) }
    {
        match self.cells() {
            Cells::Constant { value, .. } => !is_null_value(value),
            Cells::Rows(_) => true,
            Cells::Truths(truths) => truths_in(truths).truth_at(i).is_some(),
            Cells::Numbers(numbers) => numbers_in(numbers).number_at(i).is_some(),
            Cells::Columns { .. } => true,
            Cells::Masked { nulls, .. } => !is_hidden(nulls, i),
        }
    }

    /// How many rows there are.
    pub fn len(&self) -> usize
        ensures { result ≡ length self.now.rows }
    {
        match self.cells() {
            Cells::Constant { len, .. } => *len,
            Cells::Rows(rows) => rows.len(),
            Cells::Truths(truths) => truths_in(truths).len(),
            Cells::Numbers(numbers) => numbers_in(numbers).len(),
            Cells::Columns { len, .. } => *len,
            Cells::Masked { nulls, .. } => truths_in(nulls).len(),
        }
    }
}

/// Whether each value is one of a type.
fn all_fit(dtype: &DType, values: &[ScalarValue]) -> bool
    ensures { result ≡ values_fit (type_view dtype.now) values.now }
{
    for value in values {
        if !value.fits(dtype) {
            return false;
        }
    }
    true
}

impl Clone for ColumnRef {
    ghost is_clone = { λ column copy. copy ≡ column };

    fn clone(&self) -> Result<ColumnRef, AllocError> {
        let dtype = self.dtype.clone()?;
        match self.cells() {
            Cells::Constant { value, len } => {
                Ok(ColumnRef::of_constant(dtype, value.clone()?, *len))
            }
            Cells::Rows(rows) => Ok(ColumnRef::of_shared(dtype, rows.clone()?)),
            Cells::Truths(truths) => Ok(ColumnRef::of_shared_truths(dtype, truths.clone()?)),
            Cells::Numbers(numbers) => Ok(ColumnRef::of_shared_numbers(dtype, numbers.clone()?)),
            Cells::Columns { fields, len } => Ok(ColumnRef {
                dtype,
                cells: Cells::Columns {
                    fields: fields.clone()?,
                    len: *len,
                },
            }),
            Cells::Masked { column, nulls } => Ok(ColumnRef {
                dtype,
                cells: Cells::Masked {
                    column: column.clone()?,
                    nulls: nulls.clone()?,
                },
            }),
        }
    }
}
