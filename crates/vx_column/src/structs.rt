// Struct columns made of columns of their fields.
ghost use Rattle.std.specs.Prelude.{◌≡◌, true, not, Some, map, Option, option_map, option_copied, IfOk};
ghost use Rattle.std.specs.List.{All};
ghost use Rattle.vx_dtype.specs.Values.{raw_struct};
ghost use Rattle.vx_dtype.specs.RawViews.{raw_view, raws_of};
ghost use Rattle.vx_dtype.specs.TypeRules.{no_name_twice};
ghost use Rattle.vx_dtype.specs.TypeViews.{type_view};
ghost use Rattle.vx_column.specs.Answers.{AnswersColumn};
ghost use Rattle.vx_column.specs.Cells.{all_rows_fit};
ghost use Rattle.vx_column.specs.StructColumns.{column_types, all_have_rows, truths_number, struct_column};

use crate::columns::ColumnRef;
use crate::errors::ColumnError;
use std::alloc::Global;
use std::rc::Rc;
use vx_dtype::{DType, FieldNames, Mem, Nullability, ScalarValue, StructFields};
use vx_words::Truths;

impl ColumnRef {
    /// The column of structs with these names, whose fields at each row are the columns' values there; null where the truths say that a row
    /// isn't valid. Its type is nullable exactly where there are truths. WrongLength exactly where names and columns differ in number, or a
    /// column or the truths don't have this many rows; else DuplicateField exactly where a name stands twice.
    pub fn struct_(
        alloc: Global,
        names: FieldNames,
        fields: Vec<ColumnRef>,
        len: usize,
        valid: Option<Vec<bool>>,
    ) -> Result<ColumnRef, ColumnError>
        ensures { AnswersColumn result (struct_column names fields.items len (option_map (λ v. v.items) valid)) }
    {
        let truths = slice_of(&valid);
        if names.len() != fields.len() {
            return Err(ColumnError::WrongLength);
        }
        if !all_have_rows(len, fields.as_slice()) {
            return Err(ColumnError::WrongLength);
        }
        if !truths_number(len, truths) {
            return Err(ColumnError::WrongLength);
        }
        if !names.are_distinct() {
            return Err(ColumnError::DuplicateField);
        }
        let dtypes = types_of(alloc, fields.as_slice())?;
        let fields_type = StructFields::new(alloc, names, dtypes)?;
        let dtype = DType::Struct(fields_type, Nullability::NonNullable);
        let structs = ColumnRef::of_fields(alloc, dtype, fields, len)?;
        match truths {
            None => Ok(structs),
            Some(valid) => {
                let nulls = nulls_of(alloc, valid)?;
                Ok(ColumnRef::of_masked(alloc, structs, Rc::new(alloc, nulls)?)?)
            }
        }
    }
}

/// The truths, where there are some.
fn slice_of(valid: &Option<Vec<bool>>) -> Option<&[bool]>
    ensures { option_copied result ≡ option_map (λ v. v.items) valid.now }
{
    match valid {
        Some(truths) => Some(truths.as_slice()),
        None => None,
    }
}

/// Whether each column has this many rows.
fn all_have_rows(len: usize, fields: &[ColumnRef]) -> bool
    ensures { result ≡ all_have_rows len fields.now }
{
    for field in fields {
        if field.len() != len {
            return false;
        }
    }
    true
}

/// Whether there are this many truths, where there are any.
fn truths_number(len: usize, valid: Option<&[bool]>) -> bool
    ensures { result ≡ truths_number len (option_copied valid.entry) }
{
    match valid {
        Some(truths) => truths.len() == len,
        None => true,
    }
}

/// The places that aren't valid, as truths.
fn nulls_of(alloc: Global, valid: &[bool]) -> Mem<Truths>
    ensures { IfOk result (λ truths. truths ≡ map (λ b. Some (not b)) valid.now) }
{
    let mut nulls = Vec::with_capacity(alloc, valid.len())?;
    for is_valid in valid {
        nulls.push(Some(!*is_valid))?;
    }
    Truths::from_options(alloc, nulls.as_slice())
}

/// The types of columns, in order.
fn types_of(alloc: Global, fields: &[ColumnRef]) -> Mem<Vec<DType>>
    ensures types { IfOk result (λ ts. map type_view ts.items ≡ column_types fields.now) }
    ensures names { IfOk result (λ _. All (λ c. no_name_twice c.ty ≡ true) fields.now) }
    ensures fit { IfOk result (λ _. all_rows_fit fields.now ≡ true) }
{
    let mut dtypes = Vec::with_capacity(alloc, fields.len())?;
    for field in fields {
        dtypes.push(field.dtype().clone()?)?;
    }
    Ok(dtypes)
}

/// The struct value with these values of its fields.
pub(crate) fn struct_of(alloc: Global, parts: Vec<ScalarValue>) -> Mem<ScalarValue>
    ensures { IfOk result (λ x. raw_view x ≡ raw_struct (raws_of (map raw_view parts.items))) }
{
    Ok(ScalarValue::Struct(Rc::new(alloc, parts)?))
}
