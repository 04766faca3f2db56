// The blocks of a table put into parts.
ghost use Rattle.std.specs.Prelude.{◌≡◌, ◌+◌, ◌<◌, ◌≤◌, ◌^◌, length, map, IfOk};
ghost use Rattle.vx_tables.specs.Blocks.{block_view};
ghost use Rattle.vx_cutting.specs.Parting.{and_block, no_block, parted_view, table_of_part, tables_in_parts, Puts};
ghost use Rattle.vx_cutting.specs.PartViews.{part_view, HasBlocks, IsOpen};

use crate::cutting::{CutTable, bare_zones};
use std::alloc::Global;
use vx_column::ColumnRef;
use vx_dtype::Mem;
use vx_zones::ZoneMap;

/// Blocks of a table that stand one behind another: how many rows each has, its columns, and how many rows they have together.
#[derive(Drop)]
struct Part {
    lengths: Vec<u32>,
    blocks: Vec<Vec<ColumnRef>>,
    rows: u64,
}

/// No block.
fn no_block(alloc: Global) -> Part
    ensures { HasBlocks 0 no_block result }
{
    Part {
        lengths: Vec::new(alloc),
        blocks: Vec::new(alloc),
        rows: 0,
    }
}

/// The blocks of a part, and behind them one of so many rows.
fn and_block(part: Part, rows: u32, block: Vec<ColumnRef>) -> Mem<Part>
    requires { part.rows + rows < 2 ^ 32 }
    ensures { IfOk result (λ now. HasBlocks (part.rows + rows) (and_block (part_view part) rows (block_view block)) now) }
{
    let Part {
        mut lengths,
        mut blocks,
        rows: before,
    } = part;
    lengths.push(rows)?;
    blocks.push(block)?;
    Ok(Part {
        lengths,
        blocks,
        rows: before + rows as u64,
    })
}

/// The table of a part.
fn table_of_part(alloc: Global, zones: &ZoneMap, part: Part) -> Mem<CutTable>
    requires { length part.lengths.items < 2 ^ 32 }
    ensures { IfOk result (λ table. parted_view table ≡ table_of_part zones.now (part_view part)) }
{
    let Part {
        lengths,
        blocks,
        rows: _,
    } = part;
    Ok(CutTable {
        zones: bare_zones(alloc, zones, lengths)?,
        blocks,
    })
}

/// Puts a block of so many rows behind a part, where that has at most so many rows with it; else the part's table is whole, and the block begins another one.
/// The part that is left.
fn put_block(
    alloc: Global,
    zones: &ZoneMap,
    most: u32,
    whole: &mut Vec<CutTable>,
    part: Part,
    rows: u32,
    block: Vec<ColumnRef>,
) -> Mem<Part>
    requires open { IsOpen part }
    requires few { length part.lengths.items < 2 ^ 32 }
    ensures open { IfOk result IsOpen }
    ensures few { IfOk result (λ now. length now.lengths.items ≤ length part.lengths.items + 1) }
    ensures puts { IfOk result (λ now. Puts most zones.now (map parted_view whole.old.items) (part_view part) rows (block_view block)
        (map parted_view whole.new.items) (part_view now)) }
{
    if part.rows + rows as u64 <= most as u64 {
        return and_block(part, rows, block);
    }
    whole.push(table_of_part(alloc, zones, part)?)?;
    and_block(no_block(alloc), rows, block)
}

/// A table's blocks put into tables of at most so many rows each, in their order: each has as many blocks as it can. A block of more rows stands alone, and
/// behind a table without blocks where it is the first. A table without blocks is one without. The tables have the table's columns, and no statistics: those of
/// the table say nothing of its parts.
pub fn in_parts(
    alloc: Global,
    zones: &ZoneMap,
    blocks: Vec<Vec<ColumnRef>>,
    most: u32,
) -> Mem<Vec<CutTable>>
    requires { length zones.now.lengths ≡ length blocks.items }
    ensures few { length zones.now.lengths < 2 ^ 32 }
    ensures parts { IfOk result (λ parts. map parted_view parts.items ≡ tables_in_parts most zones.now (map block_view blocks.items)) }
{
    let lengths = zones.lengths();
    let mut whole = Vec::new(alloc);
    let mut part = no_block(alloc);
    let mut place = 0;
    for block in blocks {
        part = put_block(alloc, zones, most, &mut whole, part, lengths[place], block)?;
        place += 1;
    }
    whole.push(table_of_part(alloc, zones, part)?)?;
    Ok(whole)
}
