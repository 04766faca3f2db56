// What a request holds: a scan.
ghost use Rattle.std.specs.Prelude.{◌≡◌, ◌∷◌, [], ◌^◌, ◌<◌, codes, length, map, option_map, IfOk};
ghost use Rattle.serde_json.specs.View.{view};
ghost use Rattle.vx_zones.specs.ZoneAnswers.{MakesZones};
ghost use Rattle.vx_request.specs.declared.errors.Place.TheVariants as place;
ghost use Rattle.vx_request.specs.Objects.{object_of};
ghost use Rattle.vx_request.specs.RequestMembers.{columns_in, blocks_in, stats_in};
ghost use Rattle.vx_request.specs.Requests.{value_in, at_place, member_names, hex_bytes, zones_of, sound_zones, block_columns, scan_with, scan_in};
ghost use Rattle.vx_request.specs.Requests.{scan_of, request_of};
ghost use Rattle.vx_request.specs.RequestViews.{block_view, stat_view, columns_view, scan_view, RequestAnswers};

use crate::columns::{are_rectangles, blocks_of};
use crate::errors::{Place, RequestError, Side, TableRefusal};
use crate::objects::has_members;
use crate::request_members::{Block, Statistic, blocks_in, columns_in, stats_in};
use crate::stats::{refusal_of, stats_of};
use hex::FromHexError;
use serde_json::Value;
use std::alloc::Global;
use vx_column::ColumnRef;
use vx_dtype::{DType, Mem, NoMemory, Nullability, StructFields};
use vx_zones::{ZoneError, ZoneMap};

/// The most bytes of a request.
pub const MOST_BYTES: usize = 16777216;

/// What a request holds: a scan of the zones of a table and the columns of its blocks, with the bytes of the filter
/// and of the projection.
#[derive(Debug, Drop)]
pub struct ScanRequest {
    /// The zones of the table.
    pub zones: ZoneMap,
    /// The columns of each block.
    pub blocks: Vec<Vec<ColumnRef>>,
    /// The bytes of the filter.
    pub filter: Vec<u8>,
    /// The bytes of the projection.
    pub projection: Vec<u8>,
}

/// The value that bytes are the JSON text of.
pub(crate) fn value_in(alloc: Global, input: &[u8]) -> Mem<Option<Value>>
    ensures { IfOk result (λ value. option_map view value ≡ value_in input.now) }
{
    match Value::from_slice(alloc, input) {
        Ok(value) => Ok(Some(value)),
        Err(error) => {
            if error.is_memory() {
                return Err(NoMemory);
            }
            Ok(None)
        }
    }
}

/// The members of a request.
#[derive(Clone, Copy)]
struct RequestMembers<'v> {
    columns: &'v Value,
    blocks: &'v Value,
    stats: &'v Value,
    filter: &'v Value,
    projection: &'v Value,
}

/// The members of a request, where a value is an object of exactly these.
fn request_members(value: &Value) -> Option<RequestMembers<'_>>
    ensures { option_map (λ m. view m.columns.now ∷ view m.blocks.now ∷ view m.stats.now ∷ view m.filter.now ∷ view m.projection.now ∷ []) result
        ≡ object_of member_names (view value.now) }
{
    if !has_members(value, 5) {
        return None;
    }
    Some(RequestMembers {
        columns: value.get("columns")?,
        blocks: value.get("blocks")?,
        stats: value.get("stats")?,
        filter: value.get("filter")?,
        projection: value.get("projection")?,
    })
}

/// The bytes that hexadecimal digits stand for, two digits a byte; none where there are other characters or an odd number.
pub fn hex_bytes(alloc: Global, text: &str) -> Mem<Option<Vec<u8>>>
    ensures { IfOk result (λ bytes. option_map (λ v. v.items) bytes ≡ hex_bytes text.now) }
{
    match hex::decode(alloc, text.as_bytes()) {
        Ok(bytes) => Ok(Some(bytes)),
        Err(FromHexError::OutOfMemory) => Err(NoMemory),
        Err(FromHexError::OddLength) => Ok(None),
        Err(FromHexError::InvalidHexCharacter { .. }) => Ok(None),
        Err(FromHexError::InvalidStringLength) => Ok(None),
    }
}

/// How many rows each block has.
fn lengths_of(alloc: Global, blocks: &[Block<'_>]) -> Mem<Vec<u32>>
    ensures { IfOk result (λ lengths. lengths.items ≡ map (λ b. b.rows) (map block_view blocks.now)) }
{
    let mut lengths = Vec::with_capacity(alloc, blocks.len())?;
    for block in blocks {
        lengths.push(block.rows)?;
    }
    Ok(lengths)
}

/// The zones of these columns, blocks and statistics, where they break no rule.
pub(crate) fn sound_zones(
    alloc: Global,
    columns: StructFields,
    blocks: &[Block<'_>],
    stats: &[Statistic<'_>],
) -> Result<ZoneMap, ZoneError>
    requires { length blocks.now < 2 ^ 32 }
    ensures { MakesZones (zones_of columns (map block_view blocks.now) (map stat_view stats.now)) result }
{
    let lengths = lengths_of(alloc, blocks)?;
    let row = DType::Struct(columns.clone()?, Nullability::NonNullable);
    match stats_of(alloc, &row, stats)? {
        Some(made) => ZoneMap::of_columns(alloc, columns, lengths, made),
        None => Err(refusal_of(alloc, &columns, lengths.as_slice(), stats)?),
    }
}

/// The columns of each block: each list of cells has its column's length, and then each cell is a value of its column's type.
pub(crate) fn block_columns(
    alloc: Global,
    columns: &StructFields,
    blocks: &[Block<'_>],
) -> Result<Vec<Vec<ColumnRef>>, RequestError>
    ensures { RequestAnswers (λ v. map columns_view v.items) (block_columns columns.now (map block_view blocks.now)) result }
{
    if !are_rectangles(columns.nfields(), blocks) {
        return Err(RequestError::BadTable(TableRefusal::WrongLength));
    }
    match blocks_of(alloc, columns.dtypes(), blocks)? {
        Some(blocks) => Ok(blocks),
        None => Err(RequestError::BadTable(TableRefusal::WrongValue)),
    }
}

/// The scan of zones and blocks beside two texts.
fn scan_with(
    alloc: Global,
    zones: ZoneMap,
    columns: &StructFields,
    blocks: &[Block<'_>],
    filter: Vec<u8>,
    projection: Vec<u8>,
) -> Result<ScanRequest, RequestError>
    ensures { RequestAnswers scan_view (scan_with zones columns.now (map block_view blocks.now) filter.items projection.items) result }
{
    let blocks = block_columns(alloc, columns, blocks)?;
    Ok(ScanRequest {
        zones,
        blocks,
        filter,
        projection,
    })
}

/// The scan that a request holds: both texts are digits of bytes, the zones break no rule, and the cells are those of
/// the columns.
fn scan_in(
    alloc: Global,
    columns: StructFields,
    blocks: &[Block<'_>],
    stats: &[Statistic<'_>],
    filter: &str,
    projection: &str,
) -> Result<ScanRequest, RequestError>
    requires { length blocks.now < 2 ^ 32 }
    ensures { RequestAnswers scan_view (scan_in (record {
      columns = columns;
      blocks = map block_view blocks.now;
      stats = map stat_view stats.now;
      filter = filter.now;
      projection = projection.now;
    })) result }
{
    let Some(filter) = hex_bytes(alloc, filter)? else {
        return Err(RequestError::BadHex(Side::Filter));
    };
    let Some(projection) = hex_bytes(alloc, projection)? else {
        return Err(RequestError::BadHex(Side::Projection));
    };
    match sound_zones(alloc, columns.clone()?, blocks, stats) {
        Ok(zones) => scan_with(alloc, zones, &columns, blocks, filter, projection),
        Err(error) => Err(RequestError::from(error)),
    }
}

/// The columns at their place.
pub(crate) fn columns_at(alloc: Global, value: &Value) -> Result<StructFields, RequestError>
    ensures { RequestAnswers (λ columns. columns) (at_place place.Columns (columns_in (view value.now))) result }
{
    match columns_in(alloc, value)? {
        Some(columns) => Ok(columns),
        None => Err(RequestError::BadRequest(Place::Columns)),
    }
}

/// The blocks at their place.
pub(crate) fn blocks_at(alloc: Global, value: &Value) -> Result<Vec<Block<'_>>, RequestError>
    ensures blocks { RequestAnswers (λ v. map block_view v.items) (at_place place.Blocks (blocks_in (view value.now))) result }
    ensures few { IfOk result (λ blocks. length blocks.items < 2 ^ 32) }
{
    match blocks_in(alloc, value)? {
        Some(blocks) => Ok(blocks),
        None => Err(RequestError::BadRequest(Place::Blocks)),
    }
}

/// The statistics at their place.
pub(crate) fn stats_at(alloc: Global, value: &Value) -> Result<Vec<Statistic<'_>>, RequestError>
    ensures { RequestAnswers (λ v. map stat_view v.items) (at_place place.Stats (stats_in (view value.now))) result }
{
    match stats_in(alloc, value)? {
        Some(stats) => Ok(stats),
        None => Err(RequestError::BadRequest(Place::Stats)),
    }
}

/// The scan that a value holds: its places are read one after another, each whole before the next.
fn scan_of(alloc: Global, value: &Value) -> Result<ScanRequest, RequestError>
    ensures { RequestAnswers scan_view (scan_of (view value.now)) result }
{
    let Some(members) = request_members(value) else {
        return Err(RequestError::BadRequest(Place::Top));
    };
    let columns = columns_at(alloc, members.columns)?;
    let blocks = blocks_at(alloc, members.blocks)?;
    let stats = stats_at(alloc, members.stats)?;
    let Some(filter) = members.filter.as_str() else {
        return Err(RequestError::BadRequest(Place::Filter));
    };
    let Some(projection) = members.projection.as_str() else {
        return Err(RequestError::BadRequest(Place::Projection));
    };
    let (blocks, stats) = (blocks.as_slice(), stats.as_slice());
    scan_in(alloc, columns, blocks, stats, filter, projection)
}

/// The scan that an input holds, or the first reason why it holds none, in the order of [`RequestError`] and of its
/// parts. A member given twice counts once, with its last value.
#[tactic(auto, unfolding(crate::specs::Requests::request_of))]
pub fn decode_request(alloc: Global, input: &[u8]) -> Result<ScanRequest, RequestError>
    ensures { RequestAnswers scan_view (request_of input.now) result }
{
    if input.len() > MOST_BYTES {
        return Err(RequestError::InputTooLong);
    }
    let Some(value) = value_in(alloc, input)? else {
        return Err(RequestError::BadJson);
    };
    scan_of(alloc, &value)
}
