// The fields that structs give together, found in the way that suits their names, and the list of these fields' names.
ghost use Rattle.std.specs.Prelude.{◌≡◌, map, IfOk};
ghost use Rattle.std.specs.List.{All};
ghost use Rattle.vx_semantics.specs.Merging.{merged_names};
ghost use Rattle.vx_typing.specs.MergedFields.{name_of, IsGivenBy};

use crate::alike_structs::{alike_fields, are_alike};
use crate::few_structs::{FEW_STRUCTS, all_distinct, fields_of_few};
use crate::field_places::{MergedField, fields_by_name};
use std::alloc::Global;
use vx_dtype::{FieldName, FieldNames, Mem};

/// The fields that structs with these names give together, each name once and in order of first appearance: the first field of the name in the
/// last of the structs that has one. Structs that all have the same names cost no look-up, and few structs one in each for a name; else it takes
/// the time of a sort of all names. So structs of many fields do not hold up the caller.
pub fn merged_fields(alloc: Global, structs: &[FieldNames]) -> Mem<Vec<MergedField>>
    ensures names { IfOk result (λ fields. map name_of fields.items ≡ merged_names (λ own. own) structs.now) }
    ensures places { IfOk result (λ fields. All (IsGivenBy structs.now) fields.items) }
{
    if are_alike(structs) {
        return alike_fields(alloc, structs);
    }
    if structs.len() > FEW_STRUCTS {
        return fields_by_name(alloc, structs);
    }
    if !all_distinct(structs) {
        return fields_by_name(alloc, structs);
    }
    fields_of_few(alloc, structs)
}

/// The names of merged fields, in order: where the first of these structs has the same names, its own list, in which they are known already.
pub fn merged_field_names(
    alloc: Global,
    fields: &[MergedField],
    structs: &[FieldNames],
) -> Mem<FieldNames>
    ensures { IfOk result (λ names. names ≡ map name_of fields.now) }
{
    let names = names_of(alloc, fields)?;
    match structs {
        [] => FieldNames::new(alloc, names),
        [first, ..] => list_like(alloc, names, first),
    }
}

/// The names of merged fields, in order.
fn names_of(alloc: Global, fields: &[MergedField]) -> Mem<Vec<FieldName>>
    ensures { IfOk result (λ names. names.items ≡ map name_of fields.now) }
{
    let mut names = Vec::with_capacity(alloc, fields.len())?;
    for field in fields {
        names.push(field.name.clone()?)?;
    }
    Ok(names)
}

/// A list of these names: another list itself, where it has the same.
#[tactic(auto, using(vx_dtype::specs::EqualLaws::names_decides))]
fn list_like(alloc: Global, names: Vec<FieldName>, other: &FieldNames) -> Mem<FieldNames>
    ensures { IfOk result (λ list. list ≡ names.items) }
{
    if other.as_slice() == names.as_slice() {
        return Ok(other.clone()?);
    }
    FieldNames::new(alloc, names)
}
