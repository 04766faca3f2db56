// Making columns of values.
ghost use Rattle.std.specs.Prelude.{◌≡◌, true, map, Ok, IfOk};
ghost use Rattle.std.proofs.Math.ListN.{replicate};
ghost use Rattle.vx_dtype.specs.Types.{bool_ty, int_ty, text_ty, list_ty};
ghost use Rattle.vx_dtype.specs.TypeRules.{no_name_twice};
ghost use Rattle.vx_dtype.specs.Values.{raw_bool, raw_int, raw_text, value_of};
ghost use Rattle.vx_dtype.specs.RawViews.{raw_view};
ghost use Rattle.vx_dtype.specs.TypeViews.{type_view};
ghost use Rattle.vx_words.specs.Truths.{vals_of};
ghost use Rattle.vx_column.specs.declared.errors.ColumnError.TheVariants.{DuplicateField};
ghost use Rattle.vx_column.specs.Columns.{Column, column};
ghost use Rattle.vx_column.specs.ColumnParts.{numbers_fit, truths_fit};
ghost use Rattle.vx_column.specs.PlainValues.{number_fits, numbers_vals};
ghost use Rattle.vx_column.specs.Answers.{AnswersColumn, unless, optional_raw, list_raw, column_of_raws};

use crate::columns::ColumnRef;
use crate::errors::ColumnError;
use std::alloc::Global;
use std::rc::Rc;
use vx_dtype::{DType, ElementType, Mem, NoMemory, Nullability, PType, Scalar, ScalarValue, Text};
use vx_numbers::Numbers;
use vx_words::Truths;

impl ColumnRef {
    /// The column of these values of the type. WrongValue exactly where one of them isn't of the type; else DuplicateField exactly where a
    /// name stands twice in a struct of the type, at any depth.
    #[tactic(auto, using(crate::proofs::MadeLemmas::clones_are_the_same))]
    pub fn from_values(
        alloc: Global,
        dtype: DType,
        values: &[ScalarValue],
    ) -> Result<ColumnRef, ColumnError>
        ensures { AnswersColumn result (column_of_raws (type_view dtype) (map raw_view values.now)) }
    {
        ColumnRef::of_values(alloc, dtype, Vec::from_clones(alloc, values)?)
    }

    /// The column of this many rows of one value. DuplicateField exactly where a name stands twice in a struct of its type, at any depth.
    pub fn constant(_alloc: Global, value: &Scalar, len: usize) -> Result<ColumnRef, ColumnError>
        ensures { AnswersColumn result (unless (no_name_twice value.now.ty) DuplicateField (Ok (column value.now.ty (replicate len (value_of value.now))))) }
    {
        if !value.dtype().has_distinct_names() {
            return Err(ColumnError::DuplicateField);
        }
        let dtype = value.dtype().clone()?;
        Ok(ColumnRef::of_constant(dtype, value.value().clone()?, len))
    }

    /// The column of these truths, for truths that are known to be of the boolean type of this nullability.
    pub fn from_truths(alloc: Global, truths: Truths, n: Nullability) -> Mem<ColumnRef>
        requires { truths_fit n truths ≡ true }
        ensures { IfOk result (λ c. c ≡ column (bool_ty n) (vals_of truths)) }
    {
        ColumnRef::of_truths(alloc, DType::Bool(n), truths)
    }

    /// The column of these numbers, for numbers that are known to be of their integer type in this nullability.
    pub fn from_numbers(alloc: Global, numbers: Numbers, n: Nullability) -> Mem<ColumnRef>
        requires { numbers_fit numbers.ptype n numbers.numbers ≡ true }
        ensures { IfOk result (λ c. c ≡ column (int_ty numbers.ptype n) (numbers_vals numbers)) }
    {
        let dtype = DType::Primitive(numbers.ptype(), n);
        ColumnRef::of_numbers(alloc, dtype, numbers)
    }

    /// The column of these booleans, null where there is none. WrongValue exactly where there is none and the type isn't nullable.
    pub fn bool(
        alloc: Global,
        values: Vec<Option<bool>>,
        n: Nullability,
    ) -> Result<ColumnRef, ColumnError>
        ensures { AnswersColumn result (column_of_raws (bool_ty n) (map (optional_raw raw_bool) values.items)) }
    {
        if !all_fit(n, values.as_slice()) {
            return Err(ColumnError::WrongValue);
        }
        let truths = Truths::from_options(alloc, values.as_slice())?;
        Ok(ColumnRef::of_truths(alloc, DType::Bool(n), truths)?)
    }

    /// The column of these numbers of an integer type, null where there is none. WrongValue exactly where a number is out of the type's
    /// range, or there is none and the type isn't nullable.
    pub fn primitive(
        alloc: Global,
        p: PType,
        values: Vec<Option<i128>>,
        n: Nullability,
    ) -> Result<ColumnRef, ColumnError>
        ensures { AnswersColumn result (column_of_raws (int_ty p n) (map (optional_raw raw_int) values.items)) }
    {
        if !all_in_range(p, n, values.as_slice()) {
            return Err(ColumnError::WrongValue);
        }
        let numbers = Numbers::from_options(alloc, p, values.as_slice())?;
        Ok(ColumnRef::of_numbers(alloc, DType::Primitive(p, n), numbers)?)
    }

    /// The column of these texts, null where there is none. WrongValue exactly where there is none and the type isn't nullable.
    pub fn utf8(
        alloc: Global,
        values: Vec<Option<Text>>,
        n: Nullability,
    ) -> Result<ColumnRef, ColumnError>
        ensures { AnswersColumn result (column_of_raws (text_ty n) (map (optional_raw raw_text) values.items)) }
    {
        let mut rows = Vec::with_capacity(alloc, values.len())?;
        for value in values {
            rows.push(match value {
                Some(text) => ScalarValue::Utf8(text),
                None => ScalarValue::Null,
            })?;
        }
        ColumnRef::of_values(alloc, DType::Utf8(n), rows)
    }

    /// The column of these lists, null where there is none. WrongValue exactly where an element isn't of the element type, or there is no
    /// list and the type isn't nullable; else DuplicateField exactly where a name stands twice in a struct of the element type, at any
    /// depth.
    pub fn list(
        alloc: Global,
        element: DType,
        values: Vec<Option<Vec<ScalarValue>>>,
        n: Nullability,
    ) -> Result<ColumnRef, ColumnError>
        ensures { AnswersColumn result (column_of_raws (list_ty (type_view element) n) (map (optional_raw list_raw) values.items)) }
    {
        let dtype = DType::List(ElementType::new(Rc::new(alloc, element)?), n);
        ColumnRef::of_values(alloc, dtype, list_rows(alloc, values)?)
    }
}

/// Whether a boolean type has each of the truths, and the null where there is none.
fn all_fit(n: Nullability, truths: &[Option<bool>]) -> bool
    ensures { result ≡ truths_fit n truths.now }
{
    for truth in truths {
        if truth.is_none() && n == Nullability::NonNullable {
            return false;
        }
    }
    true
}

/// Whether an integer type has each of the numbers, and the null where there is none.
fn all_in_range(p: PType, n: Nullability, numbers: &[Option<i128>]) -> bool
    ensures { result ≡ numbers_fit p n numbers.now }
{
    for number in numbers {
        if !has_number(p, n, *number) {
            return false;
        }
    }
    true
}

/// Whether an integer type has a number, or the null where there is none.
fn has_number(p: PType, n: Nullability, number: Option<i128>) -> bool
    ensures { result ≡ number_fits p n number }
{
    match number {
        Some(i) => p.in_range(i),
        None => n == Nullability::Nullable,
    }
}

/// The column that was made, where nothing but want of memory can be in the way.
pub fn made(answer: Result<ColumnRef, ColumnError>) -> Mem<ColumnRef>
    requires { (told : Column) × AnswersColumn answer (Ok told) }
    ensures { IfOk result (λ c. answer ≡ Ok c) }
{
    match answer {
        Ok(column) => Ok(column),
        Err(ColumnError::NoMemory) => Err(NoMemory),
        Err(ColumnError::WrongLength) => unreachable!(),
        Err(ColumnError::WrongValue) => unreachable!(),
        Err(ColumnError::DuplicateField) => unreachable!(),
        Err(ColumnError::UnknownField) => unreachable!(),
        Err(ColumnError::Overflow) => unreachable!(),
        Err(ColumnError::BadCast) => unreachable!(),
    }
}

/// The lists as values, null where there is none.
fn list_rows(alloc: Global, values: Vec<Option<Vec<ScalarValue>>>) -> Mem<Vec<ScalarValue>>
    ensures { IfOk result (λ rows. map raw_view rows.items ≡ map (optional_raw list_raw) values.items) }
{
    let mut rows = Vec::with_capacity(alloc, values.len())?;
    for value in values {
        rows.push(match value {
            Some(items) => ScalarValue::List(Rc::new(alloc, items)?),
            None => ScalarValue::Null,
        })?;
    }
    Ok(rows)
}
