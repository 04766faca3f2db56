// The type of several structs' fields.
ghost use Rattle.std.specs.Prelude.{◌≡◌, Some, map, IfOk};
ghost use Rattle.std.specs.List.{All, list_all};
ghost use Rattle.vx_dtype.specs.StructTypes.{is_struct_ty};
ghost use Rattle.vx_dtype.specs.TypeViews.{type_view};
ghost use Rattle.vx_semantics.specs.Merging.{merged_names};
ghost use Rattle.vx_semantics.specs.Typing.{names_in, merged_type_at, merged_fields_at, merge_type};
ghost use Rattle.vx_typing.specs.MergedFields.{name_of, IsGivenBy};
ghost use Rattle.vx_typing.specs.TypingAnswers.{AnswersType};

use crate::errors::TypeError;
use crate::field_places::MergedField;
use crate::merging::{merged_field_names, merged_fields};
use std::alloc::Global;
use vx_dtype::{DType, FieldNames, Mem, Nullability, StructFields};

/// The names of a type's fields; what is no struct has none.
pub fn names_in(alloc: Global, dtype: &DType) -> Mem<FieldNames>
    ensures { IfOk result (λ names. names ≡ names_in (type_view dtype.now)) }
{
    match dtype {
        DType::Struct(fields, _) => Ok(fields.names().clone()?),
        _ => Ok(FieldNames::new(alloc, Vec::new(alloc))?),
    }
}

/// Whether each type is a struct.
fn all_structs(types: &[DType]) -> bool
    ensures { result ≡ list_all is_struct_ty (map type_view types.now) }
{
    for dtype in types {
        if !dtype.is_struct() {
            return false;
        }
    }
    true
}

/// The names of each struct's fields.
fn names_in_each(alloc: Global, types: &[DType]) -> Mem<Vec<FieldNames>>
    ensures { IfOk result (λ names. names.items ≡ map names_in (map type_view types.now)) }
{
    let mut names = Vec::with_capacity(alloc, types.len())?;
    for dtype in types {
        names.push(names_in(alloc, dtype)?)?;
    }
    Ok(names)
}

/// The fields that structs of these types give together, and the list of their names.
fn fields_together(alloc: Global, types: &[DType]) -> Mem<(Vec<MergedField>, FieldNames)>
    ensures names { IfOk result (λ made. map name_of made.0.items ≡ merged_names names_in (map type_view types.now)) }
    ensures places { IfOk result (λ made. All (IsGivenBy (map names_in (map type_view types.now))) made.0.items) }
    ensures list { IfOk result (λ made. made.1 ≡ map name_of made.0.items) }
{
    let structs = names_in_each(alloc, types)?;
    let fields = merged_fields(alloc, structs.as_slice())?;
    let names = merged_field_names(alloc, fields.as_slice(), structs.as_slice())?;
    Ok((fields, names))
}

/// The type of a merged field: that of the field at its place, nullable also where the struct there is.
fn merged_type(field: &MergedField, types: &[DType]) -> Mem<DType>
    requires { IsGivenBy (map names_in (map type_view types.now)) field.now }
    ensures { IfOk result (λ dtype. merged_type_at field.now.name (map type_view types.now) ≡ Some (type_view dtype)) }
{
    let giver = &types[field.place.giver];
    let Some(fields) = giver.as_struct_fields_opt() else {
        unreachable!();
    };
    let Some(dtype) = fields.field_by_index(field.place.index) else {
        unreachable!();
    };
    Ok(dtype.union_nullability(giver.nullability())?)
}

/// The types of merged fields, in order.
fn merged_types(alloc: Global, fields: &[MergedField], types: &[DType]) -> Mem<Vec<DType>>
    requires { All (IsGivenBy (map names_in (map type_view types.now))) fields.now }
    ensures { IfOk result (λ merged. map (λ m. merged_type_at m.name (map type_view types.now)) fields.now ≡ map Some (map type_view merged.items)) }
{
    let mut merged = Vec::with_capacity(alloc, fields.len())?;
    for field in fields {
        merged.push(merged_type(field, types)?)?;
    }
    Ok(merged)
}

/// Merged fields with their types, under the list of their names.
fn typed_fields(
    alloc: Global,
    names: FieldNames,
    fields: &[MergedField],
    types: &[DType],
) -> Mem<StructFields>
    requires names { names ≡ map name_of fields.now }
    requires given { All (IsGivenBy (map names_in (map type_view types.now))) fields.now }
    ensures { IfOk result (λ made. made ≡ merged_fields_at (map name_of fields.now) (map type_view types.now)) }
{
    let merged = merged_types(alloc, fields, types)?;
    Ok(StructFields::new(alloc, names, merged)?)
}

/// The struct of several structs' fields.
pub(crate) fn merge_type(
    alloc: Global,
    nullability: Nullability,
    types: &[DType],
) -> Result<DType, TypeError>
    ensures { AnswersType (merge_type nullability (map type_view types.now)) result }
{
    if !all_structs(types) {
        return Err(TypeError::NotStruct);
    }
    let (fields, names) = fields_together(alloc, types)?;
    let merged = typed_fields(alloc, names, fields.as_slice(), types)?;
    Ok(DType::Struct(merged, nullability))
}
