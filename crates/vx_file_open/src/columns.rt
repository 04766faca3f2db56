// The columns of a file, each read of its range.
ghost use Rattle.std.specs.Prelude.{◌≡◌, ◌<◌, ◌≤◌, true, length, Err, IfOk, IfSome};
ghost use Rattle.vx_dtype.specs.TypeRules.{has_name, field_names};
ghost use Rattle.vx_io.specs.Counts.{one_more};
ghost use Rattle.vx_file_open.specs.Layouts.{content_at, IsFileWith, WhereBytes};
ghost use Rattle.vx_file_open.specs.ColumnAnswers.{IsColumnIn, IsRangeRead};

use crate::layouts::Layout;
use std::alloc::Global;
use vx_column::ColumnRef;
use vx_dtype::FieldName;
use vx_file_bytes::read_range;
use vx_file_ranges::{PieceError, Ranged, read_piece};
use vx_tables::columns_of;

/// The column of a block and a name that exist, read of its range, and of no other. None where the range isn't the values of the column, as many as the
/// block has rows; also where the source ends before it.
pub fn read_column<R: Ranged>(
    alloc: Global,
    layout: &Layout,
    source: &mut R,
    block: u32,
    name: &FieldName,
) -> Result<Option<ColumnRef>, PieceError>
    requires block { block < length layout.now.zones.lengths }
    requires column { has_name name.now (field_names layout.now.zones.columns) ≡ true }
    requires told { WhereBytes (R.bytes source.old) (IsFileWith layout.now) }
    ensures same { R.bytes source.new ≡ R.bytes source.old }
    ensures later { R.faults source.old ≤ R.faults source.new }
    ensures cause { result ≡ Err PieceError.ReadFault → one_more (R.faults source.old) ≤ R.faults source.new }
    ensures quiet { IfOk result (λ _. R.faults source.new ≡ R.faults source.old) }
    ensures memory { result ≡ Err PieceError.NoMemory → R.faults source.new ≡ R.faults source.old }
    ensures column { IfOk result (λ found. IfSome found (IsColumnIn layout.now.zones block name.now)) }
    ensures range { IfOk result (λ found. WhereBytes (R.bytes source.old) (λ bytes. IsRangeRead (content_at layout.now bytes) block name.now found)) }
{
    let fields = columns_of(layout.zones());
    let column = fields.names().position(name).unwrap();
    let dtype = fields.field_by_index(column).unwrap();
    let rows = layout.zones().lengths()[block as usize];
    let (place, count) = layout.range(block, column);
    let range = read_piece(alloc, source, place, count as usize)?;
    if range.len() < count as usize {
        return Ok(None);
    }
    Ok(read_range(alloc, dtype, rows, range.as_slice())?)
}
