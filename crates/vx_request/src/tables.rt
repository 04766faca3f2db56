// The table that a text of JSON tells.
ghost use Rattle.std.specs.Prelude.{◌^◌, ◌<◌, length, map, option_map};
ghost use Rattle.serde_json.specs.View.{view};
ghost use Rattle.vx_request.specs.RequestViews.{block_view, stat_view, told_view, RequestAnswers};
ghost use Rattle.vx_request.specs.Tables as spec;

use crate::errors::{Place, RequestError};
use crate::objects::{three_members, two_members};
use crate::request_members::{Block, Statistic};
use crate::requests::{
    MOST_BYTES, block_columns, blocks_at, columns_at, sound_zones, stats_at, value_in,
};
use serde_json::Value;
use std::alloc::Global;
use vx_column::ColumnRef;
use vx_dtype::StructFields;
use vx_zones::ZoneMap;

/// A table: its zones and the columns of its blocks.
#[derive(Debug, Drop)]
pub struct ToldTable {
    /// The zones of the table.
    pub zones: ZoneMap,
    /// The columns of each block.
    pub blocks: Vec<Vec<ColumnRef>>,
}

/// The table of zones and blocks.
fn told_with(
    alloc: Global,
    zones: ZoneMap,
    columns: &StructFields,
    blocks: &[Block<'_>],
) -> Result<ToldTable, RequestError>
    ensures { RequestAnswers told_view (spec.told_with zones columns.now (map block_view blocks.now)) result }
{
    let blocks = block_columns(alloc, columns, blocks)?;
    Ok(ToldTable { zones, blocks })
}

/// The table of columns, blocks and statistics: the zones break no rule, and the cells are those of the columns.
fn told_in(
    alloc: Global,
    columns: StructFields,
    blocks: &[Block<'_>],
    stats: &[Statistic<'_>],
) -> Result<ToldTable, RequestError>
    requires { length blocks.now < 2 ^ 32 }
    ensures { RequestAnswers told_view (spec.told_in columns (map block_view blocks.now) (map stat_view stats.now)) result }
{
    match sound_zones(alloc, columns.clone()?, blocks, stats) {
        Ok(zones) => told_with(alloc, zones, &columns, blocks),
        Err(error) => Err(RequestError::from(error)),
    }
}

/// The statistics at their place; none where there is no such place.
fn maybe_stats_at(alloc: Global, stats: Option<&Value>) -> Result<Vec<Statistic<'_>>, RequestError>
    ensures { RequestAnswers (λ v. map stat_view v.items) (spec.stats_at (option_map (λ v. view v.now) stats.entry)) result }
{
    match stats {
        Some(stats) => stats_at(alloc, stats),
        None => Ok(Vec::new(alloc)),
    }
}

/// The table of the values at its places, which are read one after another, each whole before the next.
fn places_told(
    alloc: Global,
    columns: &Value,
    blocks: &Value,
    stats: Option<&Value>,
) -> Result<ToldTable, RequestError>
    ensures { RequestAnswers told_view (spec.places_told (view columns.now) (view blocks.now) (option_map (λ v. view v.now) stats.entry)) result }
{
    let columns = columns_at(alloc, columns)?;
    let blocks = blocks_at(alloc, blocks)?;
    let stats = maybe_stats_at(alloc, stats)?;
    told_in(alloc, columns, blocks.as_slice(), stats.as_slice())
}

/// The table that a value tells.
fn told_of(alloc: Global, value: &Value) -> Result<ToldTable, RequestError>
    ensures { RequestAnswers told_view (spec.told_of (view value.now)) result }
{
    if let Some((columns, blocks)) = two_members(value, "columns", "blocks") {
        return places_told(alloc, columns, blocks, None);
    }
    match three_members(value, "columns", "blocks", "stats") {
        Some((columns, blocks, stats)) => places_told(alloc, columns, blocks, Some(stats)),
        None => Err(RequestError::BadRequest(Place::Top)),
    }
}

/// The table that an input tells, a text of JSON: an object of exactly the members `columns`, `blocks` and, where there are statistics, `stats`, each as in
/// a request. Without `stats` there are no statistics. A member given twice counts once, with its last value.
///
/// Refused with the first reason in the order of [`RequestError`] and of its parts, but for the two texts of a request, which a table hasn't.
#[tactic(auto, unfolding(crate::specs::Tables::told_table))]
pub fn decode_table(alloc: Global, input: &[u8]) -> Result<ToldTable, RequestError>
    ensures { RequestAnswers told_view (spec.told_table input.now) result }
{
    if input.len() > MOST_BYTES {
        return Err(RequestError::InputTooLong);
    }
    let Some(value) = value_in(alloc, input)? else {
        return Err(RequestError::BadJson);
    };
    told_of(alloc, &value)
}
