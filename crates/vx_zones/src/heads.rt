// What statistics are of, and how many values they have: all that their rules look at but for the values' types.
ghost use Rattle.std.specs.Prelude.{◌≡◌, length, map, IfOk};
ghost use Rattle.vx_zones.specs.Heads.{head_of};
ghost use Rattle.vx_zones.specs.ZoneViews.{head_view, stat_view};

use crate::zone_columns::ZoneColumn;
use crate::zones::ZoneStat;
use std::alloc::Global;
use vx_dtype::{FieldPath, Mem, Stat};

/// What a statistic is of, and how many values it has.
#[derive(Drop)]
pub struct StatHead<'a> {
    /// The path from a column on.
    pub path: &'a FieldPath,
    /// What the values are of the path's values in a block.
    pub stat: Stat,
    /// How many values there are.
    pub count: usize,
}

/// The heads of statistics whose values stand one by one.
pub(crate) fn heads_of(alloc: Global, stats: &[ZoneStat]) -> Mem<Vec<StatHead<'_>>>
    ensures { IfOk result (λ heads. map head_view heads.items ≡ map head_of (map stat_view stats.now)) }
{
    let mut heads = Vec::with_capacity(alloc, stats.len())?;
    for stat in stats {
        heads.push(head_of(stat))?;
    }
    Ok(heads)
}

/// The head of a statistic whose values stand one by one.
fn head_of(stat: &ZoneStat) -> StatHead<'_>
    ensures { head_view result ≡ head_of (stat_view stat.now) }
{
    StatHead {
        path: &stat.path,
        stat: stat.stat,
        count: stat.values.as_slice().len(),
    }
}

/// The heads of statistics as columns.
pub(crate) fn column_heads(alloc: Global, stats: &[ZoneColumn]) -> Mem<Vec<StatHead<'_>>>
    ensures { IfOk result (λ heads. map head_view heads.items ≡ map head_of stats.now) }
{
    let mut heads = Vec::with_capacity(alloc, stats.len())?;
    for stat in stats {
        heads.push(column_head(stat))?;
    }
    Ok(heads)
}

/// The head of a statistic as a column.
fn column_head(stat: &ZoneColumn) -> StatHead<'_>
    ensures { head_view result ≡ head_of stat.now }
{
    StatHead {
        path: stat.path(),
        stat: stat.stat(),
        count: stat.blocks(),
    }
}
