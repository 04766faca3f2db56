// Fields that structs give together which all have the same names: no name is looked up.
ghost use Rattle.std.specs.Prelude.{◌≡◌, true, Some, map, IfOk};
ghost use Rattle.std.specs.List.{All, list_all};
ghost use Rattle.vx_dtype.specs.Equal.{names_eq};
ghost use Rattle.vx_dtype.specs.TypeRules.{distinct_names};
ghost use Rattle.vx_semantics.specs.Merging.{merged_names};
ghost use Rattle.vx_typing.specs.MergedFields.{are_alike, first_place, name_of, IsGivenBy};

use crate::field_places::{FieldPlace, MergedField};
use std::alloc::Global;
use vx_dtype::{FieldName, FieldNames, Mem};

/// Whether the structs all have the same names, of which none stands twice.
pub(crate) fn are_alike(structs: &[FieldNames]) -> bool
    ensures { result ≡ are_alike structs.now }
{
    match structs {
        [] => true,
        [first, others @ ..] => first.are_distinct() && all_have(first, others),
    }
}

/// Whether each of the structs has these names, in this order.
fn all_have(names: &FieldNames, structs: &[FieldNames]) -> bool
    ensures { result ≡ list_all (names_eq names.now) structs.now }
{
    structs.iter().all(|own| names == own)
}

/// The fields that structs give together which all have the same names, of which none stands twice: those of the last.
pub(crate) fn alike_fields(alloc: Global, structs: &[FieldNames]) -> Mem<Vec<MergedField>>
    requires { are_alike structs.now ≡ true }
    ensures names { IfOk result (λ fields. map name_of fields.items ≡ merged_names (λ own. own) structs.now) }
    ensures places { IfOk result (λ fields. All (IsGivenBy structs.now) fields.items) }
{
    match structs {
        [] => Ok(Vec::new(alloc)),
        [first, others @ ..] => Ok(own_fields(alloc, others.len(), first.as_slice())?),
    }
}

/// The fields of the struct of this number, which has these names, of which none stands twice.
fn own_fields(alloc: Global, giver: usize, names: &[FieldName]) -> Mem<Vec<MergedField>>
    requires { distinct_names names.now ≡ true }
    ensures names { IfOk result (λ fields. map name_of fields.items ≡ names.now) }
    ensures places { IfOk result (λ fields. map (λ m. Some m.place) fields.items ≡ map (λ f. first_place giver f names.now) names.now) }
{
    let mut fields = Vec::with_capacity(alloc, names.len())?;
    for index in 0..names.len() {
        let place = FieldPlace { giver, index };
        fields.push(MergedField {
            name: names[index].clone()?,
            place,
        })?;
    }
    Ok(fields)
}
