// Which names stand once among some: in an ordered map, so that a name costs one look-up, however many there are and whatever they are.
ghost use Rattle.std.specs.Prelude.{◌≡◌, IfOk};
ghost use Rattle.std.specs.BTreeMap.{get};
ghost use Rattle.std.specs.Ordering.{nat_cmp};
ghost use Rattle.std.specs.Cmp.Lexicographic.{slice_cmp};
ghost use Rattle.vx_prune.specs.Standing.{NotesStanding, is_once};

use std::alloc::Global;
use std::collections::BTreeMap;
use vx_dtype::{FieldName, Mem};

/// Of each of these names, whether it stands once among them. The map has no other names. It is ordered by the names, so that a hostile choice
/// of them does not hold up the caller.
pub fn standing(alloc: Global, names: &[FieldName]) -> Mem<BTreeMap<FieldName, bool>>
    ensures { IfOk result (NotesStanding names.now) }
{
    let mut noted = BTreeMap::new(alloc);
    for name in names {
        let is_new = !noted.contains_key(name);
        noted.insert(name.clone()?, is_new)?;
    }
    Ok(noted)
}

/// Whether it is noted of a name that it stands once.
pub fn stands_once(noted: &BTreeMap<FieldName, bool>, name: &FieldName) -> bool
    ensures { result ≡ is_once (get (slice_cmp nat_cmp) noted.now name.now) }
{
    match noted.get(name) {
        Some(once) => *once,
        None => false,
    }
}
