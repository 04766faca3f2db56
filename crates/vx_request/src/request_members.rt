// The places of a request, each read of a JSON value.
ghost use Rattle.std.specs.Prelude.{◌≡◌, ◌^◌, ◌<◌, nat_le, length, map, option_map, IfSome, IfOk};
ghost use Rattle.serde_json.specs.Data.{Items};
ghost use Rattle.serde_json.specs.Find.{as_str, as_array};
ghost use Rattle.serde_json.specs.View.{view};
ghost use Rattle.vx_dtype.specs.Types.{Bytes};
ghost use Rattle.vx_request.specs.RequestMembers.{BlockText, StatText, columns_in, rows_in, block_in, rows_number, most_rows, blocks_in, stat_named};
ghost use Rattle.vx_request.specs.RequestMembers.{stat_in, stats_in};
ghost use Rattle.vx_request.specs.RequestViews.{cells_view, block_view, name_view, stat_view};

use crate::objects::{FromValue, has_float, list_read, three_members, two_members};
use crate::types::{MOST_LEVELS, named_fields, named_types_in};
use serde_json::Value;
use std::alloc::Global;
use vx_dtype::{Mem, Stat, StructFields};

const MOST_COLUMNS: usize = 1024;

const MOST_ROWS: u64 = 1048576;

const MOST_BLOCKS: usize = 4294967295;

/// A block: how many rows it has, and of each column its cells.
#[derive(Drop)]
pub(crate) struct Block<'v> {
    pub(crate) rows: u32,
    pub(crate) values: Vec<&'v Vec<Value>>,
}

/// A statistic: the names of its path, its kind, and its cells.
#[derive(Drop)]
pub(crate) struct Statistic<'v> {
    pub(crate) path: Vec<&'v str>,
    pub(crate) stat: Stat,
    pub(crate) values: &'v Vec<Value>,
}

/// The columns: a list of names beside types, no more than 1,024.
pub(crate) fn columns_in(alloc: Global, value: &Value) -> Mem<Option<StructFields>>
    ensures { IfOk result (λ columns. columns ≡ columns_in (view value.now)) }
{
    let Some(named) = named_types_in(alloc, MOST_LEVELS, value)? else {
        return Ok(None);
    };
    if named.len() > MOST_COLUMNS {
        return Ok(None);
    }
    Ok(Some(named_fields(alloc, named)?))
}

/// A number of rows, from 0 to 1,048,576.
fn rows_in(value: &Value) -> Option<u32>
    ensures { result ≡ rows_in (view value.now) }
{
    let rows = value.as_u64()?;
    if rows > MOST_ROWS {
        return None;
    }
    Some(rows as u32)
}

/// A column's cells: a list.
impl<'v> FromValue<'v> for &'v Vec<Value> {
    ghost Seen = { Items };

    ghost seen = { cells_view };

    ghost found = { as_array };

    fn from_value(_alloc: Global, value: &'v Value) -> Mem<Option<&'v Vec<Value>>> {
        Ok(value.as_array())
    }
}

/// A block: an object of its number of rows and the lists of its columns' cells.
impl<'v> FromValue<'v> for Block<'v> {
    ghost Seen = { BlockText };

    ghost seen = { block_view };

    ghost found = { block_in };

    fn from_value(alloc: Global, value: &'v Value) -> Mem<Option<Block<'v>>> {
        let Some((rows, values)) = two_members(value, "rows", "values") else {
            return Ok(None);
        };
        let Some(rows) = rows_in(rows) else {
            return Ok(None);
        };
        match list_read(alloc, values)? {
            Some(values) => Ok(Some(Block { rows, values })),
            None => Ok(None),
        }
    }
}

/// Whether all blocks together have no more rows than 1,048,576.
fn rows_within(blocks: &[Block<'_>]) -> bool
    ensures { result ≡ nat_le (rows_number (map block_view blocks.now)) most_rows }
{
    let mut left = MOST_ROWS;
    for block in blocks {
        let rows = block.rows as u64;
        if rows > left {
            return false;
        }
        left -= rows;
    }
    true
}

/// The blocks: a list of no more rows together than 1,048,576, and of fewer blocks than 2^32, whose numbers are whole
/// numbers of 64 bits, also those in cells.
pub(crate) fn blocks_in(alloc: Global, value: &Value) -> Mem<Option<Vec<Block<'_>>>>
    ensures blocks { IfOk result (λ blocks. option_map (λ v. map block_view v.items) blocks ≡ blocks_in (view value.now)) }
    ensures few { IfOk result (λ blocks. IfSome blocks (λ v. length v.items < 2 ^ 32)) }
{
    if has_float(value) {
        return Ok(None);
    }
    let Some(blocks) = list_read(alloc, value)? else {
        return Ok(None);
    };
    if !rows_within(blocks.as_slice()) {
        return Ok(None);
    }
    if blocks.len() > MOST_BLOCKS {
        return Ok(None);
    }
    Ok(Some(blocks))
}

/// The statistic of a name.
fn stat_named(name: &str) -> Option<Stat>
    ensures { result ≡ stat_named name.now }
{
    if name == "min" {
        return Some(Stat::Min);
    }
    if name == "max" {
        return Some(Stat::Max);
    }
    if name == "null_count" {
        return Some(Stat::NullCount);
    }
    None
}

/// A name in a path: a text.
impl<'v> FromValue<'v> for &'v str {
    ghost Seen = { Bytes };

    ghost seen = { name_view };

    ghost found = { as_str };

    fn from_value(_alloc: Global, value: &'v Value) -> Mem<Option<&'v str>> {
        Ok(value.as_str())
    }
}

/// A statistic: an object of its path's names, its own name and its cells.
impl<'v> FromValue<'v> for Statistic<'v> {
    ghost Seen = { StatText };

    ghost seen = { stat_view };

    ghost found = { stat_in };

    fn from_value(alloc: Global, value: &'v Value) -> Mem<Option<Statistic<'v>>> {
        let Some((path, stat, values)) = three_members(value, "path", "stat", "values") else {
            return Ok(None);
        };
        let Some(path) = list_read(alloc, path)? else {
            return Ok(None);
        };
        let Some(stat) = stat.as_str().and_then(stat_named) else {
            return Ok(None);
        };
        match values.as_array() {
            Some(values) => Ok(Some(Statistic { path, stat, values })),
            None => Ok(None),
        }
    }
}

/// The statistics: a list of them, whose numbers are whole numbers of 64 bits, also those in cells.
pub(crate) fn stats_in(alloc: Global, value: &Value) -> Mem<Option<Vec<Statistic<'_>>>>
    ensures { IfOk result (λ stats. option_map (λ v. map stat_view v.items) stats ≡ stats_in (view value.now)) }
{
    if has_float(value) {
        return Ok(None);
    }
    list_read(alloc, value)
}
