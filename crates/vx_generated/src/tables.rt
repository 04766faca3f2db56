// The generated table.
ghost use Rattle.std.specs.Prelude.{◌≡◌, map, IfOk};
ghost use Rattle.vx_tables.specs.Blocks.{block_view};
ghost use Rattle.vx_laws_generated.specs.GeneratedTable.{generated_zones, generated_filter, generated_projection};
ghost use Rattle.vx_generated.specs.GeneratedBlocks.{generated_blocks};

use crate::blocks::blocks;
use crate::expressions::{filter, projection};
use crate::statistics::zones;
use std::alloc::Global;
use vx_column::ColumnRef;
use vx_dtype::Mem;
use vx_expr::ExprRef;
use vx_zones::ZoneMap;

/// The generated table: its statistics, the columns of its blocks, and the filter and the projection by which it is scanned.
#[derive(Debug, Drop)]
pub struct GeneratedTable {
    pub zones: ZoneMap,
    pub blocks: Vec<Vec<ColumnRef>>,
    pub filter: ExprRef,
    pub projection: ExprRef,
}

/// The generated table of this many rows, in blocks of 64, the last one the rest. Column `id` counts the rows from 0; column `v`, from 0 to 99, is null at
/// each tenth row. The statistics hold the least and the greatest number of each column in each block. The filter asks the rows of the second half in
/// which `v` is below 50, the projection their `id`.
pub fn generated(alloc: Global, rows: u32) -> Mem<GeneratedTable>
    ensures zones { IfOk result (λ made. made.zones ≡ generated_zones rows) }
    ensures blocks { IfOk result (λ made. map block_view made.blocks.items ≡ generated_blocks rows) }
    ensures filter { IfOk result (λ made. made.filter ≡ generated_filter rows) }
    ensures projection { IfOk result (λ made. made.projection ≡ generated_projection) }
{
    Ok(GeneratedTable {
        zones: zones(alloc, rows)?,
        blocks: blocks(alloc, rows)?,
        filter: filter(alloc, rows)?,
        projection: projection(alloc)?,
    })
}
