// Fields that structs give together, and where each stands: by a map of all places.
ghost use Rattle.std.specs.Prelude.{◌≡◌, ◌++◌, Some, IsSome, map, IfOk, OnOk};
ghost use Rattle.std.specs.Option.{option_or};
ghost use Rattle.std.specs.List.{All, flat_map};
ghost use Rattle.std.specs.Ordering.{nat_cmp};
ghost use Rattle.std.specs.Cmp.Lexicographic.{slice_cmp};
ghost use Rattle.std.specs.BTreeMap.{get};
ghost use Rattle.vx_dtype.specs.Types.{Bytes};
ghost use Rattle.vx_dtype.specs.Structs.{first_names};
ghost use Rattle.vx_semantics.specs.Merging.{merged_names};
ghost use Rattle.vx_typing.specs.MergedFields.{first_place, last_place, name_of, IsGivenBy};

use std::alloc::Global;
use std::collections::{BTreeMap, BTreeSet};
use vx_dtype::{FieldName, FieldNames, Mem};

/// Where a field of one of several structs stands. Numbers and indexes are counted from 0.
#[derive(Clone, Copy, Debug)]
pub struct FieldPlace {
    /// The number of the struct.
    pub giver: usize,
    /// The index of the field in that struct.
    pub index: usize,
}

/// A field that structs give together.
#[derive(Debug, Drop)]
pub struct MergedField {
    /// The name.
    pub name: FieldName,
    /// The place in the last of the structs that has a field of the name, and of its fields of that name the first.
    pub place: FieldPlace,
}

/// The fields that structs give together, whatever names they have: by a map of all places, and a set of the names that were met.
pub(crate) fn fields_by_name(alloc: Global, structs: &[FieldNames]) -> Mem<Vec<MergedField>>
    ensures names { IfOk result (λ fields. map name_of fields.items ≡ merged_names (λ own. own) structs.now) }
    ensures places { IfOk result (λ fields. All (IsGivenBy structs.now) fields.items) }
{
    let places = last_places(alloc, structs)?;
    let names = first_names(alloc, all_names(alloc, structs)?.as_slice())?;
    Ok(placed_fields(alloc, names.as_slice(), &places)?)
}

/// Where the first field of each name stands in the last of the structs that has one.
fn last_places(alloc: Global, structs: &[FieldNames]) -> Mem<BTreeMap<FieldName, FieldPlace>>
    ensures { IfOk result (λ places. (f : Bytes) → get (slice_cmp nat_cmp) places f ≡ last_place 0 f structs.now) }
{
    let mut places = BTreeMap::new(alloc);
    for giver in 0..structs.len() {
        note_places(giver, structs[giver].as_slice(), &mut places)?;
    }
    Ok(places)
}

/// Notes where the first field of each of a struct's names stands, in the place of what was noted of the name before. The names go from the
/// last to the first, so that of a name that stands twice the first place is left.
fn note_places(
    giver: usize,
    names: &[FieldName],
    places: &mut BTreeMap<FieldName, FieldPlace>,
) -> Mem<()>
    ensures { OnOk result ((f : Bytes) →
        get (slice_cmp nat_cmp) places.new f ≡ option_or (first_place giver f names.now) (get (slice_cmp nat_cmp) places.old f)) }
{
    let mut left = names.len();
    while left > 0 {
        left -= 1;
        let place = FieldPlace { giver, index: left };
        places.insert(names[left].clone()?, place)?;
    }
    Ok(())
}

/// The names of the structs' fields, struct by struct.
fn all_names(alloc: Global, structs: &[FieldNames]) -> Mem<Vec<FieldName>>
    ensures { IfOk result (λ all. all.items ≡ flat_map (λ own. own) structs.now) }
{
    let mut all = Vec::new(alloc);
    for names in structs {
        all = followed_by(all, names.as_slice())?;
    }
    Ok(all)
}

/// Names, and more of them behind.
pub(crate) fn followed_by(mut names: Vec<FieldName>, more: &[FieldName]) -> Mem<Vec<FieldName>>
    ensures { IfOk result (λ all. all.items ≡ names.items ++ more.now) }
{
    for name in more {
        names.push(name.clone()?)?;
    }
    Ok(names)
}

/// The names in order of first appearance, each once.
fn first_names(alloc: Global, names: &[FieldName]) -> Mem<Vec<FieldName>>
    ensures { IfOk result (λ first. first.items ≡ first_names names.now) }
{
    let mut first = Vec::new(alloc);
    let mut seen = BTreeSet::new(alloc);
    for name in names {
        if !seen.insert(name.clone()?)? {
            continue;
        }
        first.push(name.clone()?)?;
    }
    Ok(first)
}

/// The fields of these names, each where it is noted to stand.
fn placed_fields(
    alloc: Global,
    names: &[FieldName],
    places: &BTreeMap<FieldName, FieldPlace>,
) -> Mem<Vec<MergedField>>
    requires { All (λ f. IsSome (get (slice_cmp nat_cmp) places.now f)) names.now }
    ensures names { IfOk result (λ fields. map name_of fields.items ≡ names.now) }
    ensures places { IfOk result (λ fields. map (λ m. Some m.place) fields.items ≡ map (get (slice_cmp nat_cmp) places.now) names.now) }
{
    let mut fields = Vec::with_capacity(alloc, names.len())?;
    for name in names {
        fields.push(placed_field(name, places)?)?;
    }
    Ok(fields)
}

/// The field of this name, where it is noted to stand.
fn placed_field(name: &FieldName, places: &BTreeMap<FieldName, FieldPlace>) -> Mem<MergedField>
    requires { IsSome (get (slice_cmp nat_cmp) places.now name.now) }
    ensures name { IfOk result (λ m. m.name ≡ name.now) }
    ensures place { IfOk result (λ m. get (slice_cmp nat_cmp) places.now name.now ≡ Some m.place) }
{
    match places.get(name) {
        Some(place) => Ok(MergedField {
            name: name.clone()?,
            place: *place,
        }),
        None => unreachable!(),
    }
}
