// Fields that few structs give together, none of which has a name twice: each name is looked up in the structs' own lists.
ghost use Rattle.std.specs.Prelude.{◌≡◌, true, not, Some, IsSome, map, IfOk};
ghost use Rattle.std.specs.List.{All, filter, list_all, list_any};
ghost use Rattle.vx_dtype.specs.TypeRules.{distinct_names, has_name};
ghost use Rattle.vx_semantics.specs.Merging.{merged_names};
ghost use Rattle.vx_typing.specs.MergedFields.{last_place, name_of, IsGivenBy};

use crate::field_places::{FieldPlace, MergedField, followed_by};
use std::alloc::Global;
use vx_dtype::{FieldName, FieldNames, Mem};

/// How many structs are few: among so many it is sooner to look a name up in each than to make a map of all names.
pub(crate) const FEW_STRUCTS: usize = 3;

/// Whether none of the structs has a name twice.
pub(crate) fn all_distinct(structs: &[FieldNames]) -> bool
    ensures { result ≡ list_all distinct_names structs.now }
{
    structs.iter().all(|names| names.are_distinct())
}

/// The fields that structs give together, none of which has a name twice, with as many look-ups for a name as there are structs.
pub(crate) fn fields_of_few(alloc: Global, structs: &[FieldNames]) -> Mem<Vec<MergedField>>
    requires { list_all distinct_names structs.now ≡ true }
    ensures names { IfOk result (λ fields. map name_of fields.items ≡ merged_names (λ own. own) structs.now) }
    ensures places { IfOk result (λ fields. All (IsGivenBy structs.now) fields.items) }
{
    let names = names_of_few(alloc, structs)?;
    Ok(fields_named(alloc, names.as_slice(), structs)?)
}

/// The names of the structs' fields in order of first appearance, each once.
fn names_of_few(alloc: Global, structs: &[FieldNames]) -> Mem<Vec<FieldName>>
    requires { list_all distinct_names structs.now ≡ true }
    ensures { IfOk result (λ names. names.items ≡ merged_names (λ own. own) structs.now) }
{
    let mut names = Vec::new(alloc);
    for i in 0..structs.len() {
        let new = new_names(alloc, &structs[..i], &structs[i])?;
        names = followed_by(names, new.as_slice())?;
    }
    Ok(names)
}

/// The names of a struct that none of these structs has.
fn new_names(alloc: Global, before: &[FieldNames], own: &FieldNames) -> Mem<Vec<FieldName>>
    ensures { IfOk result (λ new. new.items ≡ filter (λ name. not (list_any (has_name name) before.now)) own.now) }
{
    let mut new = Vec::new(alloc);
    for name in own.as_slice() {
        if !is_given(before, name) {
            new.push(name.clone()?)?;
        }
    }
    Ok(new)
}

/// Whether one of the structs has this name.
fn is_given(structs: &[FieldNames], name: &FieldName) -> bool
    ensures { result ≡ list_any (has_name name.now) structs.now }
{
    structs.iter().any(|names| names.contains(name))
}

/// The fields of these names, each in the last of the structs that has it.
fn fields_named(alloc: Global, names: &[FieldName], structs: &[FieldNames]) -> Mem<Vec<MergedField>>
    requires { All (λ f. IsSome (last_place 0 f structs.now)) names.now }
    ensures names { IfOk result (λ fields. map name_of fields.items ≡ names.now) }
    ensures places { IfOk result (λ fields. map (λ m. Some m.place) fields.items ≡ map (λ f. last_place 0 f structs.now) names.now) }
{
    let mut fields = Vec::with_capacity(alloc, names.len())?;
    for name in names {
        fields.push(field_named(name, structs)?)?;
    }
    Ok(fields)
}

/// The field of this name in the last of the structs that has it.
fn field_named(name: &FieldName, structs: &[FieldNames]) -> Mem<MergedField>
    requires { IsSome (last_place 0 name.now structs.now) }
    ensures name { IfOk result (λ m. m.name ≡ name.now) }
    ensures place { IfOk result (λ m. last_place 0 name.now structs.now ≡ Some m.place) }
{
    match last_place(structs, name) {
        Some(place) => Ok(MergedField {
            name: name.clone()?,
            place,
        }),
        None => unreachable!(),
    }
}

/// Where the first field of this name stands in the last of the structs that has one.
fn last_place(structs: &[FieldNames], name: &FieldName) -> Option<FieldPlace>
    ensures { result ≡ last_place 0 name.now structs.now }
{
    let mut giver = structs.len();
    while giver > 0 {
        giver -= 1;
        if let Some(index) = structs[giver].position(name) {
            return Some(FieldPlace { giver, index });
        }
    }
    None
}
