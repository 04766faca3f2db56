// Blocks of columns as a table: whether they agree with its zones, and the column of a read.
ghost use Rattle.std.specs.Prelude.{◌≡◌, ◌<◌, true, Some, None, length, map, option_map, option_copied};
ghost use Rattle.std.specs.List.{slice_get, list_all};
ghost use Rattle.vx_dtype.specs.StructTypes.{field_types};
ghost use Rattle.vx_dtype.specs.TypeRules.{has_name, field_names, field_type};
ghost use Rattle.vx_dtype.specs.Structs.{field_of};
ghost use Rattle.vx_column.specs.Columns.{rows_fit};
ghost use Rattle.vx_zones.specs.Zoning.{broken_rule};
ghost use Rattle.vx_tables.specs.Blocks.{block_view, block_long, blocks_long, is_type, block_typed, block_fits};
ghost use Rattle.vx_tables.specs.Blocks.{have_lengths, have_types, table_of_blocks, column_named};

use vx_column::ColumnRef;
use vx_dtype::{FieldName, StructFields};
use vx_zones::ZoneMap;

/// The columns of zones. Zones break no rule.
pub fn columns_of(zones: &ZoneMap) -> &StructFields
    ensures columns { result.now ≡ zones.now.columns }
    ensures rules { broken_rule zones.now ≡ None }
{
    zones.dtype().as_struct_fields_opt().unwrap()
}

/// Whether the number of blocks, of each block's columns and of each column's rows are those of the zones.
pub fn have_lengths(zones: &ZoneMap, blocks: &[Vec<ColumnRef>]) -> bool
    ensures { result ≡ have_lengths zones.now (map block_view blocks.now) }
{
    blocks_long(columns_of(zones).nfields(), zones.lengths(), blocks)
}

/// Whether there are as many blocks as numbers of rows, each with so many columns of so many rows.
fn blocks_long(width: usize, lengths: &[u32], blocks: &[Vec<ColumnRef>]) -> bool
    ensures { result ≡ blocks_long width lengths.now (map block_view blocks.now) }
{
    if blocks.len() != lengths.len() {
        return false;
    }
    for i in 0..lengths.len() {
        if !block_long(width, lengths[i], blocks[i].as_slice()) {
            return false;
        }
    }
    true
}

/// Whether a block has so many columns, each of so many rows.
fn block_long(width: usize, rows: u32, columns: &[ColumnRef]) -> bool
    ensures { result ≡ block_long width rows columns.now }
{
    if columns.len() != width {
        return false;
    }
    for column in columns {
        if column.len() != rows as usize {
            return false;
        }
    }
    true
}

/// Whether each column of each block is of the zones' type at its place. A column's values are values of its type.
pub fn have_types(zones: &ZoneMap, blocks: &[Vec<ColumnRef>]) -> bool
    ensures types { result ≡ have_types zones.now (map block_view blocks.now) }
    ensures fit { result ≡ true → list_all block_fits (map block_view blocks.now) ≡ true }
{
    for block in blocks {
        if !block_typed(columns_of(zones), block.as_slice()) {
            return false;
        }
    }
    true
}

/// Whether each column is of the type at its place.
#[tactic(auto, using(crate::proofs::BlockLemmas::typed_more, crate::proofs::BlockLemmas::typed_end))]
fn block_typed(fields: &StructFields, columns: &[ColumnRef]) -> bool
    ensures types { result ≡ block_typed (field_types fields.now) columns.now }
    ensures fit { result ≡ true → block_fits columns.now ≡ true }
{
    for i in 0..columns.len() {
        if !has_type_at(fields, i, &columns[i]) {
            return false;
        }
    }
    true
}

/// Whether a column is of the type of the field at this place, counted from 0.
fn has_type_at(fields: &StructFields, i: usize, column: &ColumnRef) -> bool
    ensures types { result ≡ is_type (slice_get (field_types fields.now) i) column.now.ty }
    ensures fit { rows_fit column.now.ty column.now.rows ≡ true }
{
    let own = column.dtype();
    match fields.field_by_index(i) {
        Some(dtype) => own == dtype,
        None => false,
    }
}

/// The column of a block, counted from 0, and a name that exist, of blocks that are as long and of the types that the zones say: of the first
/// field of the name its type, as long as the block, and with the values of that field.
pub fn held_column<'a>(
    zones: &ZoneMap,
    blocks: &'a [Vec<ColumnRef>],
    block: u32,
    name: &FieldName,
) -> &'a ColumnRef
    requires block { block < length zones.now.lengths }
    requires column { has_name name.now (field_names zones.now.columns) ≡ true }
    requires lengths { have_lengths zones.now (map block_view blocks.now) ≡ true }
    requires types { have_types zones.now (map block_view blocks.now) ≡ true }
    ensures dtype { field_type name.now zones.now.columns ≡ Some result.now.ty }
    ensures len { slice_get zones.now.lengths block ≡ Some (length result.now.rows) }
    ensures rows { option_map (map (field_of name.now)) (slice_get (table_of_blocks zones.now (map block_view blocks.now)).blocks block)
        ≡ Some result.now.rows }
{
    let columns = blocks[block as usize].as_slice();
    column_named(columns_of(zones), columns, name).unwrap()
}

/// The column of the first field of this name.
fn column_named<'a>(
    fields: &StructFields,
    columns: &'a [ColumnRef],
    name: &FieldName,
) -> Option<&'a ColumnRef>
    requires { length columns.now ≡ length (field_names fields.now) }
    ensures { option_copied result ≡ column_named name.now fields.now columns.now }
{
    match fields.names().position(name) {
        Some(place) => column_at(columns, place),
        None => None,
    }
}

/// The column at this place, counted from 0.
fn column_at(columns: &[ColumnRef], place: usize) -> Option<&ColumnRef>
    ensures { option_copied result ≡ slice_get columns.now place }
{
    columns.get(place)
}
