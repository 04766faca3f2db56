// Writing the ranges of columns.
ghost use Rattle.std.specs.Prelude.{◌≡◌, ◌<◌, ◌++◌, length, map, IfOk, IfErr, OnOk};
ghost use Rattle.std.specs.List.{AllByRecursion, flat_map};
ghost use Rattle.vx_column.specs.Columns.{row_at};
ghost use Rattle.vx_tables.specs.Blocks.{block_view};
ghost use Rattle.vx_wire_bytes.specs.Fields.{IsShort, IsText};
ghost use Rattle.vx_wire_bytes.specs.ValueForms.{TextsAre};
ghost use Rattle.vx_laws_file.specs.Cells.{raw_value, cell_bytes};
ghost use Rattle.vx_laws_file.specs.FileForms.{column_bytes};
ghost use Rattle.vx_file_bytes.specs.WritingParts.{IsTooLong, ColumnIs, BlockIs, column_number, block_bytes, block_numbers};

use crate::errors::WriteFileError;
use crate::parts_writing::write_short_value;
use std::alloc::Global;
use vx_column::ColumnRef;
use vx_wire_bytes::{LONG, write_number};

/// Writes the value of a column at a row at the end.
fn write_cell(
    alloc: Global,
    out: &mut Vec<u8>,
    column: &ColumnRef,
    i: usize,
) -> Result<(), WriteFileError>
    requires { i < length column.now.rows }
    ensures ok { OnOk result ((out.new.items ≡ out.old.items ++ cell_bytes column.now.ty (row_at column.now i))
        × TextsAre IsText (raw_value (row_at column.now i))) }
    ensures err { IfErr result (IsTooLong (TextsAre IsShort (raw_value (row_at column.now i)))) }
{
    let cell = column.scalar_at(alloc, i)?;
    write_short_value(out, cell.dtype(), cell.value())
}

/// Writes the range of a column at the end, and answers how long it is.
fn write_range(alloc: Global, out: &mut Vec<u8>, column: &ColumnRef) -> Result<u32, WriteFileError>
    ensures number { IfOk result (λ n. n ≡ length (column_bytes column.now)) }
    ensures ok { OnOk result ((out.new.items ≡ out.old.items ++ column_bytes column.now) × ColumnIs IsText column.now) }
    ensures err { IfErr result (IsTooLong (ColumnIs IsShort column.now)) }
{
    let start = out.len();
    for i in 0..column.len() {
        write_cell(alloc, out, column, i)?;
        if out.len() - start >= LONG {
            return Err(WriteFileError::TooLong);
        }
    }
    Ok((out.len() - start) as u32)
}

/// Writes the ranges of a block's columns at the end, and how long each is at the end of the header.
fn write_block(
    alloc: Global,
    ranges: &mut Vec<u8>,
    header: &mut Vec<u8>,
    columns: &[ColumnRef],
) -> Result<(), WriteFileError>
    ensures ok { OnOk result ((ranges.new.items ≡ ranges.old.items ++ block_bytes columns.now)
        × (header.new.items ≡ header.old.items ++ block_numbers columns.now) × BlockIs IsText columns.now) }
    ensures err { IfErr result (IsTooLong (BlockIs IsShort columns.now)) }
{
    for i in 0..columns.len() {
        let length = write_range(alloc, ranges, &columns[i])?;
        write_number(header, length)?;
    }
    Ok(())
}

/// Writes the ranges of all blocks at the end, and how long each is at the end of the header.
pub(crate) fn write_blocks(
    alloc: Global,
    ranges: &mut Vec<u8>,
    header: &mut Vec<u8>,
    blocks: &[Vec<ColumnRef>],
) -> Result<(), WriteFileError>
    ensures ok { OnOk result ((ranges.new.items ≡ ranges.old.items ++ flat_map block_bytes (map block_view blocks.now))
        × (header.new.items ≡ header.old.items ++ flat_map block_numbers (map block_view blocks.now))
        × AllByRecursion (BlockIs IsText) (map block_view blocks.now)) }
    ensures err { IfErr result (IsTooLong (AllByRecursion (BlockIs IsShort) (map block_view blocks.now))) }
{
    for i in 0..blocks.len() {
        write_block(alloc, ranges, header, blocks[i].as_slice())?;
    }
    Ok(())
}
