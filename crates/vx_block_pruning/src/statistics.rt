// The columns of statistics over a run of blocks.
ghost use Rattle.std.specs.Prelude.{◌≡◌, ◌+◌, ◌<◌, ◌≤◌, length, IfOk};
ghost use Rattle.vx_block_pruning.specs.StatisticColumns.{column_of};

use std::alloc::Global;
use vx_column::ColumnRef;
use vx_dtype::Mem;
use vx_zones::{ZoneColumn, rows_between};

/// The column of a statistic's values in a run of blocks, of which there is one: as it stands where the run is of all blocks.
pub(crate) fn column_of(
    alloc: Global,
    stat: &ZoneColumn,
    first: usize,
    count: usize,
) -> Mem<ColumnRef>
    requires within { first + count ≤ length stat.now.values }
    requires some { 0 < count }
    ensures { IfOk result (λ c. c ≡ column_of first count stat.now) }
{
    rows_between(alloc, stat.values(), first, count)
}
