// Writing the lines of a table, one after another.
ghost use Rattle.std.specs.Prelude.{◌≤◌, length};
ghost use Rattle.vx_laws_shell.specs.Running.{end_by};
ghost use Rattle.vx_laws_listing.specs.Listing.{AreSoundZones};
ghost use Rattle.vx_laws_listing.specs.ListingTexts.{block_line, block_lines, columns_line, lengths_between, listing_lines};
ghost use Rattle.vx_listing.specs.ListingSteps.{WritesText};

use crate::errors::LineError;
use crate::lines::{block_line, columns_line};
use std::alloc::Global;
use vx_io::{Sink, write_whole};
use vx_tables::columns_of;
use vx_zones::{ZoneColumn, ZoneMap};

/// Writes a line.
fn write_line<O: Sink>(output: &mut O, line: &str) -> Result<(), LineError>
    ensures { let end = end_by O.written O.faults in WritesText line.now (end output.old) (end output.new) result }
{
    match write_whole(output, line.as_bytes()) {
        Ok(()) => Ok(()),
        Err(_failed) => Err(LineError::Unwritten),
    }
}

/// Writes the line of a block of so many rows.
fn write_block<O: Sink>(
    alloc: Global,
    path: &str,
    statistics: &[ZoneColumn],
    block: usize,
    rows: u32,
    output: &mut O,
) -> Result<(), LineError>
    ensures { let end = end_by O.written O.faults in
        WritesText (block_line path.now statistics.now block rows) (end output.old) (end output.new) result }
{
    match block_line(alloc, path, statistics, block, rows) {
        Ok(line) => write_line(output, line.as_str()),
        Err(_no_memory) => Err(LineError::NoMemory),
    }
}

/// Writes the lines of the blocks from one number up to another, of those with these numbers of rows.
pub(crate) fn write_blocks<O: Sink>(
    alloc: Global,
    path: &str,
    statistics: &[ZoneColumn],
    lengths: &[u32],
    begin: usize,
    end: usize,
    output: &mut O,
) -> Result<(), LineError>
    requires { end ≤ length lengths.now }
    ensures { let sink = end_by O.written O.faults in
        WritesText (block_lines path.now statistics.now begin (lengths_between begin end lengths.now)) (sink output.old) (sink output.new) result }
{
    for block in begin..end {
        match write_block(alloc, path, statistics, block, lengths[block], output) {
            Ok(()) => {}
            Err(error) => return Err(error),
        }
    }
    Ok(())
}

/// Writes the line of the columns.
pub(crate) fn write_columns<O: Sink>(
    alloc: Global,
    zones: &ZoneMap,
    output: &mut O,
) -> Result<(), LineError>
    ensures { let end = end_by O.written O.faults in WritesText (columns_line zones.now.columns) (end output.old) (end output.new) result }
{
    match columns_line(alloc, columns_of(zones)) {
        Ok(line) => write_line(output, line.as_str()),
        Err(_no_memory) => Err(LineError::NoMemory),
    }
}

/// Writes the lines of a table whose file has this path: one of its columns, and one a block. A line is made where it is written, so no more memory is
/// taken for a table of more blocks.
pub(crate) fn write_lines<O: Sink>(
    alloc: Global,
    path: &str,
    zones: &ZoneMap,
    output: &mut O,
) -> Result<(), LineError>
    ensures sound { AreSoundZones zones.now }
    ensures writes { let end = end_by O.written O.faults in WritesText (listing_lines path.now zones.now) (end output.old) (end output.new) result }
{
    let lengths = zones.lengths();
    match write_columns(alloc, zones, output) {
        Ok(()) => write_blocks(
            alloc,
            path,
            zones.statistics(),
            lengths,
            0,
            lengths.len(),
            output,
        ),
        Err(error) => Err(error),
    }
}
