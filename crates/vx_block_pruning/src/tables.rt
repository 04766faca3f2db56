// The table over which pruning expressions are evaluated: a row for each block of a run, with the statistics that are available there.
ghost use Rattle.std.specs.Prelude.{◌≡◌, ◌+◌, ◌<◌, ◌≤◌, length, map, IfOk};
ghost use Rattle.std.specs.List.{All};
ghost use Rattle.vx_block_pruning.specs.Available.{flagged, TellsAvailable};
ghost use Rattle.vx_block_pruning.specs.StatisticColumns.{column_of};
ghost use Rattle.vx_block_pruning.specs.PruningTruths.{pruning_table};

use crate::statistics::column_of;
use std::alloc::Global;
use vx_column::{ColumnRef, made};
use vx_dtype::{FieldNames, Mem};
use vx_zones::{ZoneColumn, ZoneMap};

/// The available statistics under their joined names, with a row for each block of a run, where it is known which are available. The run begins
/// at a block and is so long; it has one.
pub(crate) fn statistics_table(
    alloc: Global,
    zones: &ZoneMap,
    names: &FieldNames,
    available: &[bool],
    first: u32,
    count: u32,
) -> Mem<ColumnRef>
    requires available { TellsAvailable zones.now available.now names.now }
    requires blocks { first + count ≤ length zones.now.lengths }
    requires some { 0 < count }
    ensures { IfOk result (λ table. table ≡ pruning_table zones.now first count) }
{
    let stats = zones.statistics();
    let columns = available_columns(alloc, stats, available, first as usize, count as usize)?;
    made(ColumnRef::struct_(alloc, names.clone()?, columns, count as usize, None))
}

/// The columns of the flagged statistics over a run of blocks.
fn available_columns(
    alloc: Global,
    stats: &[ZoneColumn],
    flags: &[bool],
    first: usize,
    count: usize,
) -> Mem<Vec<ColumnRef>>
    requires many { length flags.now ≡ length stats.now }
    requires values { All (λ z. first + count ≤ length z.values) stats.now }
    requires some { 0 < count }
    ensures { IfOk result (λ columns. columns.items ≡ map (column_of first count) (flagged flags.now stats.now)) }
{
    let mut columns = Vec::new(alloc);
    for i in 0..stats.len() {
        let stat = &stats[i];
        if flags[i] {
            columns.push(column_of(alloc, stat, first, count)?)?;
        }
    }
    Ok(columns)
}
