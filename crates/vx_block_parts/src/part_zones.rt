// The statistics of some blocks, one behind another.
ghost use Rattle.std.specs.Prelude.{◌≡◌, ◌≤◌, length, map, Ok, IfOk, IfErr};
ghost use Rattle.std.specs.List.{All};
ghost use Rattle.vx_zones.specs.declared.errors.ZoneError.TheVariants.{NoMemory as OutOfMemory};
ghost use Rattle.vx_block_parts.specs.Parts.{stat_between, zones_between};

use std::alloc::Global;
use vx_dtype::{Mem, NoMemory};
use vx_tables::columns_of;
use vx_zones::{ZoneColumn, ZoneError, ZoneMap};

/// The statistics of the blocks from one on, up to another one and without it. They break no rule, since those of all blocks break none.
pub(crate) fn zones_between(
    alloc: Global,
    zones: &ZoneMap,
    from: usize,
    up_to: usize,
) -> Mem<ZoneMap>
    requires order { from ≤ up_to }
    requires within { up_to ≤ length zones.now.lengths }
    ensures { IfOk result (λ within. within ≡ zones_between from up_to zones.now) }
{
    let lengths = Vec::from_slice(alloc, &zones.lengths()[from..up_to])?;
    let stats = stats_between(alloc, zones.statistics(), from, up_to)?;
    let columns = columns_of(zones).clone()?;
    made(ZoneMap::of_columns(alloc, columns, lengths, stats))
}

/// The statistics that were made, where nothing but want of memory can be in the way.
fn made(answer: Result<ZoneMap, ZoneError>) -> Mem<ZoneMap>
    requires { IfErr answer (λ e. e ≡ OutOfMemory) }
    ensures { IfOk result (λ zones. answer ≡ Ok zones) }
{
    match answer {
        Ok(zones) => Ok(zones),
        Err(ZoneError::NoMemory) => Err(NoMemory),
        Err(ZoneError::DuplicateName) => unreachable!(),
        Err(ZoneError::DeepType) => unreachable!(),
        Err(ZoneError::BadStatPath) => unreachable!(),
        Err(ZoneError::DuplicateStat) => unreachable!(),
        Err(ZoneError::WrongStatCount) => unreachable!(),
        Err(ZoneError::WrongStatType) => unreachable!(),
    }
}

/// Each statistic in these blocks.
fn stats_between(
    alloc: Global,
    stats: &[ZoneColumn],
    from: usize,
    up_to: usize,
) -> Mem<Vec<ZoneColumn>>
    requires order { from ≤ up_to }
    requires within { All (λ z. up_to ≤ length z.values) stats.now }
    ensures { IfOk result (λ within. within.items ≡ map (stat_between from up_to) stats.now) }
{
    let mut within = Vec::with_capacity(alloc, stats.len())?;
    for i in 0..stats.len() {
        within.push(stat_between(alloc, &stats[i], from, up_to)?)?;
    }
    Ok(within)
}

/// A statistic in these blocks.
fn stat_between(alloc: Global, stat: &ZoneColumn, from: usize, up_to: usize) -> Mem<ZoneColumn>
    requires order { from ≤ up_to }
    requires within { up_to ≤ length stat.now.values }
    ensures { IfOk result (λ within. within ≡ stat_between from up_to stat.now) }
{
    stat.run(alloc, from, up_to - from)
}
