// Names in order, with the first place of each where they are many: so that a name costs one look-up, however many there are. The map is an ordered one: no
// chosen names make a list of it. Whether a name stands twice is found once, where the names are put together.
ghost use Rattle.std.specs.Prelude.{◌≡◌, position, IfOk};
ghost use Rattle.std.specs.BTreeMap.{get};
ghost use Rattle.std.specs.Cmp.Lexicographic.{slice_cmp};
ghost use Rattle.std.specs.Ordering.{nat_cmp};
ghost use Rattle.std.specs.Str.{bytes_eq};
ghost use Rattle.vx_dtype.specs.TypeRules.{distinct_names};
ghost use Rattle.vx_dtype.specs.Types.{Bytes};

use crate::memory::Mem;
use crate::names::FieldName;
use std::alloc::Global;
use std::collections::BTreeMap;
use std::fmt;
use std::marker::Model;

/// How many names are few: among these a name is found sooner by comparing it with each than in a map.
const FEW_NAMES: usize = 16;

/// Names in order, the first place of each where they aren't few, and whether no name stands twice. They are seen as their list.
#[derive(Drop)]
pub(crate) struct NameList {
    names: Vec<FieldName>,
    places: Option<BTreeMap<FieldName, usize>>,
    are_distinct: bool,
}

impl Model for NameList {
    ghost use Rattle.std.specs.Prelude.{◌≡◌, ℕ, List, position, IfSome};
    ghost use Rattle.std.specs.BTreeMap.{get};
    ghost use Rattle.std.specs.Cmp.Lexicographic.{slice_cmp};
    ghost use Rattle.std.specs.Ordering.{nat_cmp};
    ghost use Rattle.std.specs.Str.{bytes_eq};
    ghost use Rattle.vx_dtype.specs.TypeRules.{distinct_names};

    ghost Value = { List (List ℕ) };

    ghost view = { λ list. list.names.items };

    ghost invariant = { λ list. IfSome list.places (λ places. (name : List ℕ) → get (slice_cmp nat_cmp) places name ≡ position (bytes_eq name) list.names.items)
        × (list.are_distinct ≡ distinct_names list.names.items) };
}

impl NameList {
    /// These names, in their order.
    pub(crate) fn new(alloc: Global, names: Vec<FieldName>) -> Mem<NameList>
        ensures { IfOk result (λ list. list ≡ names.items) }
    {
        if names.len() <= FEW_NAMES {
            return Ok(NameList::of_few(names));
        }
        let (places, are_distinct) = first_places(alloc, names.as_slice())?;
        Ok(NameList {
            names,
            places: Some(places),
            are_distinct,
        })
    }

    /// These names, which are few, in their order.
    fn of_few(names: Vec<FieldName>) -> NameList
        ensures { result ≡ names.items }
    {
        let are_distinct = few_are_distinct(names.as_slice());
        NameList {
            names,
            places: None,
            are_distinct,
        }
    }

    /// Whether no name stands twice.
    pub(crate) fn are_distinct(&self) -> bool
        ensures { result ≡ distinct_names self.now }
    {
        self.are_distinct
    }

    /// The names as a slice.
    pub(crate) fn as_slice(&self) -> &[FieldName]
        ensures { result.now ≡ self.now }
    {
        self.names.as_slice()
    }

    /// The place of the first name that equals this one.
    pub(crate) fn position(&self, name: &FieldName) -> Option<usize>
        ensures { result ≡ position (bytes_eq name.now) self.now }
    {
        match &self.places {
            Some(places) => places.get(name).copied(),
            None => self
                .names
                .as_slice()
                .iter()
                .position(|other| name.as_str() == other.as_str()),
        }
    }
}

impl fmt::Debug for NameList {
    fn fmt<W: fmt::Write>(&self, f: &mut fmt::Formatter<W>) -> fmt::Result {
        fmt::Debug::fmt(&self.names, f)
    }
}

/// Whether no name stands twice among these, each compared with those behind it.
fn few_are_distinct(names: &[FieldName]) -> bool
    ensures { result ≡ distinct_names names.now }
{
    match names {
        [] => true,
        [name, behind @ ..] => !name.is_among(behind) && few_are_distinct(behind),
    }
}

/// The place of the first name that equals each of these, and whether no name stands twice: from the last to the first, so that an earlier
/// place takes that of a later one.
fn first_places(alloc: Global, names: &[FieldName]) -> Mem<(BTreeMap<FieldName, usize>, bool)>
    ensures places { IfOk result (λ noted. (name : Bytes) → get (slice_cmp nat_cmp) noted.0 name ≡ position (bytes_eq name) names.now) }
    ensures distinct { IfOk result (λ noted. noted.1 ≡ distinct_names names.now) }
{
    let mut places = BTreeMap::new(alloc);
    let mut are_distinct = true;
    let mut left = names.len();
    while left > 0 {
        left -= 1;
        let behind = places.insert(names[left].clone()?, left)?;
        are_distinct &= behind.is_none();
    }
    Ok((places, are_distinct))
}
