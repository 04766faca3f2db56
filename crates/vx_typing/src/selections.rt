// The fields that a selection takes.
ghost use Rattle.std.specs.Prelude.{◌≡◌, Ok, IfOk};
ghost use Rattle.vx_dtype.specs.StructTypes.{all_known, fields_at};
ghost use Rattle.vx_dtype.specs.TypeViews.{type_view};
ghost use Rattle.vx_semantics.specs.Typing.{unless, unknown_field, fields_without, selected_fields, included_once, select_type};
ghost use Rattle.vx_semantics.specs.LooseTyping.{included_known, loose_select_type};
ghost use Rattle.vx_typing.specs.TypingAnswers.{AnswersBy, AnswersType};

use crate::errors::TypeError;
use std::alloc::Global;
use vx_dtype::{DType, FieldNames, FieldsError, Mem, Nullability, StructFields};
use vx_expr::FieldSelection;

/// Whether each name is one of the fields'.
fn all_known(names: &FieldNames, fields: &StructFields) -> bool
    ensures { result ≡ all_known names.now fields.now }
{
    let known = fields.names();
    names.as_slice().iter().all(|name| known.contains(name))
}

/// The fields with these names, in the order of the names.
fn included_fields(
    alloc: Global,
    fields: &StructFields,
    names: &FieldNames,
) -> Result<StructFields, TypeError>
    ensures { AnswersBy (λ taken. taken) (unless (all_known names.now fields.now) unknown_field (Ok (fields_at names.now fields.now))) result }
{
    match fields.project_list(alloc, names) {
        Ok(taken) => Ok(taken),
        Err(FieldsError::NoMemory) => Err(TypeError::NoMemory),
        Err(FieldsError::UnknownField) => Err(TypeError::UnknownField),
    }
}

/// The fields whose names are not among these.
fn fields_without(alloc: Global, fields: &StructFields, names: &FieldNames) -> Mem<StructFields>
    ensures { IfOk result (λ kept. kept ≡ fields_without names.now fields.now) }
{
    let mut kept = Vec::new(alloc);
    let mut types = Vec::new(alloc);
    for i in 0..fields.nfields() {
        let Some(name) = fields.field_name(i) else {
            unreachable!();
        };
        let Some(dtype) = fields.field_by_index(i) else {
            unreachable!();
        };
        if names.contains(name) {
            continue;
        }
        kept.push(name.clone()?)?;
        types.push(dtype.clone()?)?;
    }
    let kept_names = FieldNames::new(alloc, kept)?;
    let left = StructFields::new(alloc, kept_names, types)?;
    Ok(left)
}

/// The fields that a selection takes, where each included name is one of the fields'.
fn selected_fields(
    alloc: Global,
    selection: &FieldSelection,
    fields: &StructFields,
) -> Result<StructFields, TypeError>
    ensures { AnswersBy (λ taken. taken)
        (unless (included_known selection.now fields.now) unknown_field (Ok (selected_fields selection.now fields.now))) result }
{
    match selection {
        FieldSelection::Include(names) => included_fields(alloc, fields, names),
        FieldSelection::Exclude(names) => Ok(fields_without(alloc, fields, names)?),
    }
}

/// Whether no included name stands twice.
fn included_once(selection: &FieldSelection) -> bool
    ensures { result ≡ included_once selection.now }
{
    match selection {
        FieldSelection::Include(names) => names.are_distinct(),
        FieldSelection::Exclude(_) => true,
    }
}

/// The struct of the selected fields, not nullable.
pub(crate) fn select_type(
    alloc: Global,
    selection: &FieldSelection,
    dtype: &DType,
) -> Result<DType, TypeError>
    ensures { AnswersType (select_type selection.now (type_view dtype.now)) result }
{
    let DType::Struct(fields, nullability) = dtype else {
        return Err(TypeError::NotStruct);
    };
    if *nullability == Nullability::Nullable {
        return Err(TypeError::NullableSelect);
    }
    if !all_known(selection.field_names(), fields) {
        return Err(TypeError::UnknownField);
    }
    if !included_once(selection) {
        return Err(TypeError::DuplicateField);
    }
    let taken = selected_fields(alloc, selection, fields)?;
    Ok(DType::Struct(taken, Nullability::NonNullable))
}

/// The struct of the selected fields, nullable where the struct is.
pub(crate) fn loose_select_type(
    alloc: Global,
    selection: &FieldSelection,
    dtype: &DType,
) -> Result<DType, TypeError>
    ensures { AnswersType (loose_select_type selection.now (type_view dtype.now)) result }
{
    let DType::Struct(fields, nullability) = dtype else {
        return Err(TypeError::NotStruct);
    };
    let taken = selected_fields(alloc, selection, fields)?;
    Ok(DType::Struct(taken, *nullability))
}
