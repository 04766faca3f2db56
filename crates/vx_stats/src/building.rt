// The statistics of a table's columns.
ghost use Rattle.std.specs.Prelude.{◌≡◌, ◌<◌, true, length, map, IfOk};
ghost use Rattle.std.specs.List.{AllByRecursion};
ghost use Rattle.vx_zones.specs.ZoneViews.{stat_view};
ghost use Rattle.vx_tables.specs.Blocks.{block_view, have_lengths, have_types, table_of_blocks};
ghost use Rattle.vx_laws_stats.specs.BuiltStatistics.{built_stats};
ghost use Rattle.vx_stats.specs.Building.{AnswersBuilt};
ghost use Rattle.vx_stats.specs.ColumnFacts.{column_at};

use crate::errors::StatsError;
use crate::walks::add_at;
use std::alloc::Global;
use vx_column::ColumnRef;
use vx_dtype::{FieldPath, Mem};
use vx_tables::{columns_of, have_lengths, have_types};
use vx_zones::{ZoneError, ZoneMap, ZoneStat};

/// The zones of the same columns and blocks with the statistics that the blocks have: of each plain field, in the order of the columns and of the
/// fields of structs, the least value, the greatest value and the number of nulls, block by block. The field of a struct that is null is null; a
/// bound is null where all values are. The statistics of the given zones aren't looked at.
///
/// WrongLength exactly where the number of blocks, of a block's columns or of a column's rows differs from the zones'; else WrongType exactly where
/// a column's type differs.
pub fn build_stats(
    alloc: Global,
    zones: &ZoneMap,
    blocks: &[Vec<ColumnRef>],
) -> Result<ZoneMap, StatsError>
    ensures { AnswersBuilt zones.now (map block_view blocks.now) result }
{
    if !have_lengths(zones, blocks) {
        return Err(StatsError::WrongLength);
    }
    if !have_types(zones, blocks) {
        return Err(StatsError::WrongType);
    }
    let stats = stats_of(alloc, zones, blocks)?;
    zones_with(alloc, zones, blocks, stats)
}

/// The zones of the same columns and blocks with the statistics that the blocks have.
fn zones_with(
    alloc: Global,
    zones: &ZoneMap,
    blocks: &[Vec<ColumnRef>],
    stats: Vec<ZoneStat>,
) -> Result<ZoneMap, StatsError>
    requires lengths { have_lengths zones.now (map block_view blocks.now) ≡ true }
    requires types { have_types zones.now (map block_view blocks.now) ≡ true }
    requires stats { map stat_view stats.items ≡ built_stats (table_of_blocks zones.now (map block_view blocks.now)) }
    ensures { AnswersBuilt zones.now (map block_view blocks.now) result }
{
    let fields = columns_of(zones).clone()?;
    let lengths = Vec::from_slice(alloc, zones.lengths())?;
    match ZoneMap::try_new(alloc, fields, lengths, stats) {
        Ok(built) => Ok(built),
        Err(ZoneError::NoMemory) => Err(StatsError::NoMemory),
        Err(ZoneError::DuplicateName) => unreachable!(),
        Err(ZoneError::DeepType) => unreachable!(),
        Err(ZoneError::BadStatPath) => unreachable!(),
        Err(ZoneError::DuplicateStat) => unreachable!(),
        Err(ZoneError::WrongStatCount) => unreachable!(),
        Err(ZoneError::WrongStatType) => unreachable!(),
    }
}

/// The statistics that blocks have: column by column.
fn stats_of(alloc: Global, zones: &ZoneMap, blocks: &[Vec<ColumnRef>]) -> Mem<Vec<ZoneStat>>
    requires lengths { have_lengths zones.now (map block_view blocks.now) ≡ true }
    requires types { have_types zones.now (map block_view blocks.now) ≡ true }
    ensures { IfOk result (λ stats. map stat_view stats.items ≡ built_stats (table_of_blocks zones.now (map block_view blocks.now))) }
{
    let fields = columns_of(zones);
    let mut stats = Vec::new(alloc);
    for i in 0..fields.nfields() {
        let Some(name) = fields.field_name(i) else {
            unreachable!();
        };
        let Some(dtype) = fields.field_by_index(i) else {
            unreachable!();
        };
        let columns = columns_at(alloc, blocks, i)?;
        let path = FieldPath::from_name(alloc, name.clone()?)?;
        add_at(alloc, path, dtype, columns.as_slice(), &mut stats)?;
    }
    Ok(stats)
}

/// The column at this place, counted from 0, of each block, which each block has.
fn columns_at(alloc: Global, blocks: &[Vec<ColumnRef>], place: usize) -> Mem<Vec<ColumnRef>>
    requires { AllByRecursion (λ b. place < length b) (map block_view blocks.now) }
    ensures { IfOk result (λ columns. columns.items ≡ map (column_at place) (map block_view blocks.now)) }
{
    let mut columns = Vec::with_capacity(alloc, blocks.len())?;
    for block in blocks {
        columns.push(column_in(block.as_slice(), place)?)?;
    }
    Ok(columns)
}

/// The column at this place of a block, counted from 0.
fn column_in(block: &[ColumnRef], place: usize) -> Mem<ColumnRef>
    requires { place < length block.now }
    ensures { IfOk result (λ column. column ≡ column_at place block.now) }
{
    Ok(block[place].clone()?)
}
