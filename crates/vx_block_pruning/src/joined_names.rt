// The joined names of statistics, and which of them stand once: one look-up a statistic, however many there are.
ghost use Rattle.std.specs.Prelude.{◌≡◌, map, IfOk};
ghost use Rattle.std.specs.BTreeMap.{get};
ghost use Rattle.std.specs.Cmp.Lexicographic.{slice_cmp};
ghost use Rattle.std.specs.List.{filter};
ghost use Rattle.std.specs.Ordering.{nat_cmp};
ghost use Rattle.vx_prune.specs.Standing.{is_once};
ghost use Rattle.vx_block_pruning.specs.Available.{name_of};

use std::alloc::Global;
use std::collections::BTreeMap;
use vx_dtype::{FieldName, Mem};
use vx_prune::stands_once;
use vx_zones::ZoneColumn;

/// The joined names of statistics, in order.
pub(crate) fn joined_names(alloc: Global, stats: &[ZoneColumn]) -> Mem<Vec<FieldName>>
    ensures { IfOk result (λ names. names.items ≡ map name_of stats.now) }
{
    let mut names = Vec::with_capacity(alloc, stats.len())?;
    for stat in stats {
        names.push(stat.name().clone()?)?;
    }
    Ok(names)
}

/// Of each of these names, whether it is noted that it stands once.
pub(crate) fn alone(
    alloc: Global,
    names: &[FieldName],
    noted: &BTreeMap<FieldName, bool>,
) -> Mem<Vec<bool>>
    ensures { IfOk result (λ flags. flags.items ≡ map (λ n. is_once (get (slice_cmp nat_cmp) noted.now n)) names.now) }
{
    let mut flags = Vec::with_capacity(alloc, names.len())?;
    for name in names {
        flags.push(stands_once(noted, name))?;
    }
    Ok(flags)
}

/// Those of these names of which it is noted that they stand once, in order.
pub(crate) fn alone_names(
    alloc: Global,
    names: &[FieldName],
    noted: &BTreeMap<FieldName, bool>,
) -> Mem<Vec<FieldName>>
    ensures { IfOk result (λ kept. kept.items ≡ filter (λ n. is_once (get (slice_cmp nat_cmp) noted.now n)) names.now) }
{
    let mut kept = Vec::new(alloc);
    for name in names {
        if stands_once(noted, name) {
            kept.push(name.clone()?)?;
        }
    }
    Ok(kept)
}
