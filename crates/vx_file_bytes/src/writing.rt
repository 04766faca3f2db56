// Block files as bytes, written.
ghost use Rattle.std.specs.Prelude.{◌≡◌, ◌≤◌, true, length, map, sum, Decides, IfOk, IfErr};
ghost use Rattle.std.specs.List.{list_all};
ghost use Rattle.vx_tables.specs.Blocks.{block_fits, block_view, have_lengths, have_types};
ghost use Rattle.vx_wire_bytes.specs.Fields.{IsShort};
ghost use Rattle.vx_laws_file.specs.FileForms.{most_rows, file_bytes};
ghost use Rattle.vx_laws_file.specs.Lengths.{HasFile};
ghost use Rattle.vx_file_bytes.specs.WritingAnswers.{IsUnwritten};
ghost use Rattle.vx_file_bytes.specs.WritingParts.{joined_bytes};

use crate::columns_writing::write_blocks;
use crate::errors::WriteFileError;
use crate::header_writing::header_front;
use std::alloc::Global;
use vx_column::ColumnRef;
use vx_dtype::Mem;
use vx_tables::{have_lengths, have_types};
use vx_wire_bytes::{LONG, write_number};
use vx_zones::ZoneMap;

/// The first bytes of each file.
const MARK: &str = "VXBLK001";

/// The most rows that all blocks of a file have together.
const MOST_ROWS: u32 = 1_048_576;

/// Whether blocks of these lengths have no more rows together than a file may have.
fn are_few_rows(lengths: &[u32]) -> bool
    ensures { Decides result (sum lengths.now ≤ most_rows) }
{
    let mut left = MOST_ROWS;
    for i in 0..lengths.len() {
        if lengths[i] > left {
            return false;
        }
        left -= lengths[i];
    }
    true
}

/// The file of a header and ranges: the mark, the header behind its length, and the ranges.
fn joined(alloc: Global, header: &[u8], ranges: &[u8]) -> Mem<Vec<u8>>
    requires { IsShort header.now }
    ensures { IfOk result (λ bytes. bytes.items ≡ joined_bytes header.now ranges.now) }
{
    let mut out = Vec::new(alloc);
    out.extend_from_slice(MARK.as_bytes())?;
    write_number(&mut out, header.len() as u32)?;
    out.extend_from_slice(header)?;
    out.extend_from_slice(ranges)?;
    Ok(out)
}

/// The file of blocks that are a table with these zones.
fn write_table(
    alloc: Global,
    zones: &ZoneMap,
    blocks: &[Vec<ColumnRef>],
) -> Result<Vec<u8>, WriteFileError>
    requires lengths { have_lengths zones.now (map block_view blocks.now) ≡ true }
    requires types { have_types zones.now (map block_view blocks.now) ≡ true }
    requires fit { list_all block_fits (map block_view blocks.now) ≡ true }
    ensures written { IfOk result (λ bytes. (bytes.items ≡ file_bytes zones.now (map block_view blocks.now)) × HasFile zones.now (map block_view blocks.now)) }
    ensures refused { IfErr result (IsUnwritten zones.now (map block_view blocks.now)) }
{
    if !are_few_rows(zones.lengths()) {
        return Err(WriteFileError::TooLong);
    }
    let mut header = header_front(alloc, zones)?;
    let mut ranges = Vec::new(alloc);
    write_blocks(alloc, &mut ranges, &mut header, blocks)?;
    if header.len() >= LONG {
        return Err(WriteFileError::TooLong);
    }
    Ok(joined(alloc, header.as_slice(), ranges.as_slice())?)
}

/// The block file of a table, as bytes: a mark, a header with the columns, the lengths of the blocks, the statistics and the lengths of the ranges, and
/// the range of each column of each block. The table has a file then: what is written is opened, and holds this table.
///
/// WrongLength exactly where the number of blocks, of a block's columns or of a column's rows differs from the zones'; else WrongType exactly where a
/// column's type differs; else TooLong exactly where a text, a list, the range of a column or the header has 2^32 or more, or the blocks have more than
/// 1,048,576 rows together.
pub fn write_file(
    alloc: Global,
    zones: &ZoneMap,
    blocks: &[Vec<ColumnRef>],
) -> Result<Vec<u8>, WriteFileError>
    ensures written { IfOk result (λ bytes. (bytes.items ≡ file_bytes zones.now (map block_view blocks.now)) × HasFile zones.now (map block_view blocks.now)) }
    ensures refused { IfErr result (IsUnwritten zones.now (map block_view blocks.now)) }
{
    if !have_lengths(zones, blocks) {
        return Err(WriteFileError::WrongLength);
    }
    if !have_types(zones, blocks) {
        return Err(WriteFileError::WrongType);
    }
    write_table(alloc, zones, blocks)
}
