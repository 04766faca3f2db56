// Blocks of columns cut anew.
ghost use Rattle.std.specs.Prelude.{◌≡◌, ◌<◌, ◌≤◌, ◌-◌, ◌*◌, ◌^◌, true, None, length, map, IfOk, IfSome};
ghost use Rattle.std.specs.List.{sum};
ghost use Rattle.vx_tables.specs.Blocks.{block_view, have_lengths, have_types};
ghost use Rattle.vx_cutting.specs.Cutting.{all_have_rows, bare_zones, block_cut, blocks_cut, columns_cut, joined_columns, length_cut, lengths_cut};
ghost use Rattle.vx_cutting.specs.CutAnswers.{AnswersCut, IsCut};

use crate::columns::{joined_column, part_of};
use crate::errors::CutError;
use std::alloc::Global;
use vx_column::ColumnRef;
use vx_dtype::{Mem, NoMemory};
use vx_tables::{columns_of, have_lengths, have_types};
use vx_zones::{ZoneError, ZoneMap};

/// A table in blocks, as they were cut: its zones, which have no statistics, and the columns of each block.
#[derive(Debug, Drop)]
pub struct CutTable {
    pub zones: ZoneMap,
    pub blocks: Vec<Vec<ColumnRef>>,
}

/// How many rows the blocks of zones have together. There are fewer than 2^32 blocks, of fewer than 2^32 rows each.
fn rows_of(zones: &ZoneMap) -> u64
    ensures rows { result ≡ sum zones.now.lengths }
    ensures few { result ≤ (2 ^ 32 - 1) * (2 ^ 32 - 1) }
{
    let lengths = zones.lengths();
    let mut rows = 0u64;
    for i in 0..lengths.len() {
        rows += lengths[i] as u64;
    }
    rows
}

/// The columns of a table, each with its values in all blocks.
fn joined_columns(alloc: Global, zones: &ZoneMap, blocks: &[Vec<ColumnRef>]) -> Mem<Vec<ColumnRef>>
    requires lengths { have_lengths zones.now (map block_view blocks.now) ≡ true }
    requires types { have_types zones.now (map block_view blocks.now) ≡ true }
    ensures { IfOk result (λ columns. columns.items ≡ joined_columns zones.now (map block_view blocks.now)) }
{
    let fields = columns_of(zones);
    let mut columns = Vec::new(alloc);
    for i in 0..fields.nfields() {
        let Some(dtype) = fields.field_by_index(i) else {
            unreachable!();
        };
        columns.push(joined_column(alloc, blocks, i, dtype)?)?;
    }
    Ok(columns)
}

/// A block of columns that are cut into blocks of so many rows, by its number from 0 on.
fn block_of(
    alloc: Global,
    columns: &[ColumnRef],
    rows: u64,
    most: u32,
    block: u32,
) -> Mem<Vec<ColumnRef>>
    requires rows { all_have_rows rows columns.now ≡ true }
    requires within { block * most ≤ rows }
    ensures { IfOk result (λ cs. cs.items ≡ block_cut most columns.now block) }
{
    let from = block as u64 * most as u64;
    let to = rows.min(from + most as u64);
    let mut cut = Vec::new(alloc);
    for column in columns {
        cut.push(part_of(alloc, column, from as usize, to as usize)?)?;
    }
    Ok(cut)
}

/// The blocks of columns that are cut into so many blocks, of so many rows each but the last.
fn blocks_of(
    alloc: Global,
    columns: &[ColumnRef],
    rows: u64,
    most: u32,
    number: u32,
) -> Mem<Vec<Vec<ColumnRef>>>
    requires rows { all_have_rows rows columns.now ≡ true }
    requires number { number ≡ blocks_cut most rows }
    requires some { 0 < most }
    ensures { IfOk result (λ blocks. map block_view blocks.items ≡ columns_cut most rows columns.now) }
{
    let mut blocks = Vec::new(alloc);
    for block in 0..number {
        blocks.push(block_of(alloc, columns, rows, most, block)?)?;
    }
    Ok(blocks)
}

/// How many rows a block has of so many that are cut.
fn length_of(rows: u64, most: u32, block: u32) -> u32
    requires { block * most ≤ rows }
    ensures { result ≡ length_cut most rows block }
{
    let left = rows - block as u64 * most as u64;
    left.min(most as u64) as u32
}

/// How many rows each block has of so many that are cut into so many blocks.
fn lengths_of(alloc: Global, rows: u64, most: u32, number: u32) -> Mem<Vec<u32>>
    requires number { number ≡ blocks_cut most rows }
    requires some { 0 < most }
    ensures { IfOk result (λ lengths. lengths.items ≡ lengths_cut most rows) }
{
    let mut lengths = Vec::new(alloc);
    for block in 0..number {
        lengths.push(length_of(rows, most, block))?;
    }
    Ok(lengths)
}

/// The zones of the same columns whose blocks have these lengths, without statistics.
pub(crate) fn bare_zones(alloc: Global, zones: &ZoneMap, lengths: Vec<u32>) -> Mem<ZoneMap>
    requires { length lengths.items < 2 ^ 32 }
    ensures { IfOk result (λ made. made ≡ bare_zones zones.now lengths.items) }
{
    let fields = columns_of(zones).clone()?;
    match ZoneMap::try_new(alloc, fields, lengths, Vec::new(alloc)) {
        Ok(made) => Ok(made),
        Err(ZoneError::NoMemory) => Err(NoMemory),
        Err(ZoneError::DuplicateName) => unreachable!(),
        Err(ZoneError::DeepType) => unreachable!(),
        Err(ZoneError::BadStatPath) => unreachable!(),
        Err(ZoneError::DuplicateStat) => unreachable!(),
        Err(ZoneError::WrongStatCount) => unreachable!(),
        Err(ZoneError::WrongStatType) => unreachable!(),
    }
}

/// How many blocks of so many rows each, the last with what is left, so many rows are. None where they are 2^32 or more.
fn number_of_blocks(rows: u64, most: u32) -> Option<u32>
    requires { 0 < most }
    ensures some { IfSome result (λ n. n ≡ blocks_cut most rows) }
    ensures none { result ≡ None → 2 ^ 32 ≤ blocks_cut most rows }
{
    let most = most as u64;
    let whole = rows / most;
    let blocks = if rows % most == 0 { whole } else { whole + 1 };
    u32::try_from(blocks).ok()
}

/// The table of columns that are cut into so many blocks.
fn cut_columns(
    alloc: Global,
    zones: &ZoneMap,
    blocks: &[Vec<ColumnRef>],
    rows: u64,
    most: u32,
    number: u32,
) -> Mem<CutTable>
    requires lengths { have_lengths zones.now (map block_view blocks.now) ≡ true }
    requires types { have_types zones.now (map block_view blocks.now) ≡ true }
    requires rows { rows ≡ sum zones.now.lengths }
    requires number { number ≡ blocks_cut most rows }
    requires some { 0 < most }
    ensures { IfOk result (λ cut. IsCut zones.now (map block_view blocks.now) most cut) }
{
    let columns = joined_columns(alloc, zones, blocks)?;
    let lengths = lengths_of(alloc, rows, most, number)?;
    Ok(CutTable {
        zones: bare_zones(alloc, zones, lengths)?,
        blocks: blocks_of(alloc, columns.as_slice(), rows, most, number)?,
    })
}

/// A table cut anew into blocks of so many rows, at least one, the last one of what is left: the same rows in the same order. A table without rows has no
/// block then. The zones have no statistics: those of the blocks that were say nothing of the new ones.
///
/// WrongLength exactly where the number of blocks, of a block's columns or of a column's rows differs from the zones'; else WrongType exactly where a
/// column's type differs; else TooMany exactly where there would be 2^32 blocks or more.
pub fn cut_anew(
    alloc: Global,
    zones: &ZoneMap,
    blocks: &[Vec<ColumnRef>],
    most: u32,
) -> Result<CutTable, CutError>
    requires { 0 < most }
    ensures { AnswersCut zones.now (map block_view blocks.now) most result }
{
    if !have_lengths(zones, blocks) {
        return Err(CutError::WrongLength);
    }
    if !have_types(zones, blocks) {
        return Err(CutError::WrongType);
    }
    let rows = rows_of(zones);
    let Some(number) = number_of_blocks(rows, most) else {
        return Err(CutError::TooMany);
    };
    Ok(cut_columns(alloc, zones, blocks, rows, most, number)?)
}
