// The blocks that a filter rules out by statistics that arrays tell.
ghost use Rattle.std.specs.Prelude.{◌≡◌, ◌^◌, ◌<◌, true, [], length, map, Ok, IfOk};
ghost use Rattle.std.specs.List.{list_all};
ghost use Rattle.vx_dtype.specs.TypeRules.{is_plain};
ghost use Rattle.vx_dtype.specs.TypeViews.{type_view};
ghost use Rattle.vx_dtype.specs.Types.{Bytes};
ghost use Rattle.vx_column.specs.Columns.{row_at, zip_rows};
ghost use Rattle.vx_column.specs.StructColumns.{all_have_rows, column_types};
ghost use Rattle.vx_laws_pruning.specs.PruningTypes.{IsBooleanOver};
ghost use Rattle.vx_semantics.specs.Tables.{row_type};
ghost use Rattle.vx_zones.specs.LeafTypes.{plain_from};
ghost use Rattle.vx_zones.specs.ZoneViews.{stat_view};
ghost use Rattle.vx_arrays.specs.Bitmaps.{bitmap_of};
ghost use Rattle.vx_block_pruning.specs.BlocksRuledOut.{blocks_ruled_out};
ghost use Rattle.vx_calls.specs.Answers.{told_bytes};
ghost use Rattle.vx_calls.specs.BlockZones.{TellsRuledOut, cell_scalar, cell_type, cell_type_by, cell_types, told_statistic, zones_told};
ghost use Rattle.vx_calls.specs.Filters.{IsFilter};
ghost use Rattle.vx_calls.specs.Statistics.{needed_statistics};
ghost use Rattle.vx_calls.specs.Steps.{TellsBits, needed_view};

use crate::arrays::told_columns;
use crate::errors::CallError;
use crate::filters::{TypedFilter, typed_filter};
use crate::statistics::{Needed, needed_statistics};
use crate::zone_maps::sound;
use std::alloc::Global;
use vx_arrays::bitmap;
use vx_block_pruning::ruled_out;
use vx_column::ColumnRef;
use vx_dtype::{DType, Mem, NoMemory, Nullability, PType, Scalar};
use vx_expr::ExprRef;
use vx_tables::columns_of;
use vx_zones::{Scalars, ZoneMap, ZoneStat, type_of_values};

/// There may be fewer blocks than so many.
const MOST_BLOCKS: usize = 4_294_967_296;

/// The type of the cells of a statistic, by the row's type.
fn cell_type(row: &DType, needed: &Needed) -> Mem<DType>
    ensures { IfOk result (λ dtype. type_view dtype ≡ cell_type_by (plain_from (type_view row.now)) (needed_view needed.now)) }
{
    match type_of_values(row, &needed.path, needed.stat)? {
        Some(dtype) => Ok(dtype),
        None => Ok(DType::Primitive(PType::U64, Nullability::Nullable)),
    }
}

/// The types of the cells of statistics, by the row's type.
fn cell_types_by(alloc: Global, row: &DType, needed: &[Needed]) -> Mem<Vec<DType>>
    ensures { IfOk result (λ types. map type_view types.items ≡ map (cell_type_by (plain_from (type_view row.now))) (map needed_view needed.now)) }
{
    let mut types = Vec::new(alloc);
    for statistic in needed {
        types.push(cell_type(row, statistic)?)?;
    }
    Ok(types)
}

/// The types of the cells of statistics.
fn cell_types(alloc: Global, zones: &ZoneMap, needed: &[Needed]) -> Mem<Vec<DType>>
    ensures { IfOk result (λ types. map type_view types.items ≡ map (cell_type zones.now.columns) (map needed_view needed.now)) }
{
    cell_types_by(alloc, zones.dtype(), needed)
}

/// The cell of a column of a plain type at a row as a scalar.
fn scalar_of(alloc: Global, column: &ColumnRef, row: usize) -> Mem<Scalar>
    requires plain { is_plain column.now.ty ≡ true }
    requires row { row < length column.now.rows }
    ensures { IfOk result (λ scalar. scalar ≡ cell_scalar column.now.ty (row_at column.now row)) }
{
    let scalar = column.scalar_at(alloc, row)?;
    // What a scalar holds is one of its type: the scalar's own promise, which comes with its value.
    let _value = scalar.value();
    Ok(scalar)
}

/// The cells of a column of a plain type as scalars.
fn scalars_of(alloc: Global, column: &ColumnRef) -> Mem<Scalars>
    requires { is_plain column.now.ty ≡ true }
    ensures { IfOk result (λ scalars. scalars ≡ map (cell_scalar column.now.ty) column.now.rows) }
{
    let mut scalars = Vec::with_capacity(alloc, column.len())?;
    for i in 0..column.len() {
        scalars.push(scalar_of(alloc, column, i)?)?;
    }
    Ok(Scalars::new(scalars))
}

/// A statistic whose values in the blocks are the cells of a column.
fn told_statistic(alloc: Global, needed: &Needed, column: &ColumnRef) -> Mem<ZoneStat>
    requires { is_plain column.now.ty ≡ true }
    ensures { IfOk result (λ statistic. stat_view statistic ≡ told_statistic (needed_view needed.now) column.now) }
{
    let path = needed.path.clone()?;
    let values = scalars_of(alloc, column)?;
    Ok(ZoneStat {
        path,
        stat: needed.stat,
        values,
    })
}

/// The statistics whose values are the cells of these columns, in their order.
fn told_statistics(alloc: Global, needed: &[Needed], cells: &[ColumnRef]) -> Mem<Vec<ZoneStat>>
    requires many { length needed.now ≡ length cells.now }
    requires plain { list_all (λ c. is_plain c.ty) cells.now ≡ true }
    ensures { IfOk result (λ statistics. map stat_view statistics.items ≡ zip_rows told_statistic (map needed_view needed.now) cells.now) }
{
    let mut statistics = Vec::with_capacity(alloc, cells.len())?;
    for i in 0..cells.len() {
        statistics.push(told_statistic(alloc, &needed[i], &cells[i])?)?;
    }
    Ok(statistics)
}

/// The zones of blocks of these lengths with the statistics that a filter needs, whose cells are those of these columns.
fn told_zones(
    alloc: Global,
    typed: &TypedFilter,
    lengths: &[u32],
    needed: &[Needed],
    cells: &[ColumnRef],
) -> Mem<ZoneMap>
    requires few { length lengths.now < 2 ^ 32 }
    requires needed { map needed_view needed.now ≡ needed_statistics typed.now.zones.columns typed.now.tree }
    requires types { column_types cells.now ≡ cell_types typed.now.zones.columns typed.now.tree }
    requires rows { all_have_rows (length lengths.now) cells.now ≡ true }
    ensures { IfOk result (λ made. made ≡ zones_told typed.now.zones.columns lengths.now typed.now.tree cells.now) }
{
    let fields = columns_of(&typed.zones).clone()?;
    let statistics = told_statistics(alloc, needed, cells)?;
    let rows = Vec::from_slice(alloc, lengths)?;
    sound(ZoneMap::try_new(alloc, fields, rows, statistics))
}

/// Of each block of zones, whether a filter rules it out, as a bitmap.
fn zone_bits(alloc: Global, zones: &ZoneMap, tree: &ExprRef) -> Mem<Vec<u8>>
    requires { IsBooleanOver (row_type zones.now.columns) tree.now }
    ensures { IfOk result (λ bytes. bytes.items ≡ bitmap_of (blocks_ruled_out zones.now [] tree.now)) }
{
    let slots: [Option<Scalar>; 0] = [];
    let flags = ruled_out(alloc, zones, tree, &slots)?;
    bitmap(alloc, flags.as_slice())
}

/// The bitmap of the blocks that a filter rules out by the cells of the statistics that it needs.
fn cell_bits(
    alloc: Global,
    typed: &TypedFilter,
    lengths: &[u32],
    needed: &[Needed],
    cells: Vec<ColumnRef>,
) -> Mem<Vec<u8>>
    requires typed { IsBooleanOver (row_type typed.now.zones.columns) typed.now.tree }
    requires few { length lengths.now < 2 ^ 32 }
    requires needed { map needed_view needed.now ≡ needed_statistics typed.now.zones.columns typed.now.tree }
    requires types { column_types cells.items ≡ cell_types typed.now.zones.columns typed.now.tree }
    requires rows { all_have_rows (length lengths.now) cells.items ≡ true }
    ensures { IfOk result (λ bytes. bytes.items
        ≡ bitmap_of (blocks_ruled_out (zones_told typed.now.zones.columns lengths.now typed.now.tree cells.items) [] typed.now.tree)) }
{
    let zones = told_zones(alloc, typed, lengths, needed, cells.as_slice())?;
    zone_bits(alloc, &zones, &typed.tree)
}

/// The bitmap of the blocks that a filter rules out by the statistics that it needs.
fn needed_bits(
    alloc: Global,
    typed: &TypedFilter,
    lengths: &[u32],
    needed: &[Needed],
    body: &[u8],
    buffers: &[u64],
) -> Result<Vec<u8>, CallError>
    requires typed { IsBooleanOver (row_type typed.now.zones.columns) typed.now.tree }
    requires few { length lengths.now < 2 ^ 32 }
    requires needed { map needed_view needed.now ≡ needed_statistics typed.now.zones.columns typed.now.tree }
    ensures { TellsBits typed.now.zones.columns typed.now.tree lengths.now body.now buffers.now (told_bytes result) }
{
    let types = cell_types(alloc, &typed.zones, needed)?;
    match told_columns(alloc, types.as_slice(), lengths.len(), body, buffers) {
        Ok(cells) => Ok(cell_bits(alloc, typed, lengths, needed, cells)?),
        Err(error) => Err(error),
    }
}

/// The bitmap of the blocks that a filter rules out, of which there are few enough.
fn few_bits(
    alloc: Global,
    typed: &TypedFilter,
    lengths: &[u32],
    body: &[u8],
    buffers: &[u64],
) -> Result<Vec<u8>, CallError>
    requires typed { IsBooleanOver (row_type typed.now.zones.columns) typed.now.tree }
    requires few { length lengths.now < 2 ^ 32 }
    ensures { TellsBits typed.now.zones.columns typed.now.tree lengths.now body.now buffers.now (told_bytes result) }
{
    match needed_statistics(alloc, typed) {
        Ok(needed) => needed_bits(alloc, typed, lengths, needed.as_slice(), body, buffers),
        Err(NoMemory) => Err(CallError::NoMemory),
    }
}

/// The bitmap of the blocks that a filter rules out.
fn block_bits(
    alloc: Global,
    typed: &TypedFilter,
    lengths: &[u32],
    body: &[u8],
    buffers: &[u64],
) -> Result<Vec<u8>, CallError>
    requires { IsBooleanOver (row_type typed.now.zones.columns) typed.now.tree }
    ensures { (schema filter : Bytes) → IsFilter schema filter typed.now.zones.columns typed.now.tree
        → TellsRuledOut schema filter lengths.now body.now buffers.now (told_bytes result) }
{
    if lengths.len() >= MOST_BLOCKS {
        return Err(CallError::ManyBlocks);
    }
    few_bits(alloc, typed, lengths, body, buffers)
}

/// Which blocks a filter rules out, as a bitmap: a bit a block, the least bit of a byte first, 1 where the statistics show that the filter is true at no row of
/// the block. The filter is wire bytes, as [`filter_bytes`](crate::filter_bytes) tells them, and `lengths` are the numbers of rows of the blocks.
///
/// The arrays are the statistics that [`filter_statistics`](crate::filter_statistics) tells, in its order, a cell a block, null where nothing is known: of
/// a minimum and of a maximum the field's type, of a count of nulls u64, each nullable. They are laid out as
/// [`columns_of_arrays`](vx_arrays::columns_of_arrays) takes them, in `body` and `buffers`.
///
/// Refused as [`filter_columns`](crate::filter_columns); else with ManyBlocks where there are 2^32 blocks or more; else with Arrays.
pub fn rules_out(
    alloc: Global,
    schema: &[u8],
    filter: &[u8],
    lengths: &[u32],
    body: &[u8],
    buffers: &[u64],
) -> Result<Vec<u8>, CallError>
    ensures { TellsRuledOut schema.now filter.now lengths.now body.now buffers.now (told_bytes result) }
{
    match typed_filter(alloc, schema, filter) {
        Ok(typed) => block_bits(alloc, &typed, lengths, body, buffers),
        Err(error) => Err(error),
    }
}
