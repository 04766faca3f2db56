// The layout of the file that a source holds.
ghost use Rattle.std.specs.Prelude.{◌≡◌, cond, Ok, Err, IfOk, IfErr};
ghost use Rattle.vx_io.specs.Ends.{HasCause};
ghost use Rattle.vx_file_ranges.specs.Places.{TellsBytes};
ghost use Rattle.vx_file_open.specs.Layouts.{WhereBytes};
ghost use Rattle.vx_file_open.specs.OpenAnswers.{OpensBytes, CountsFailure, EndsWell};

use crate::errors::FileError;
use crate::fronts::{has_mark, header_front};
use crate::layouts::Layout;
use std::alloc::Global;
use vx_file_ranges::{RangeFailed, Ranged, has_byte_at};

/// Reads the mark and the header at the front of a source, and whether the last range ends where its bytes end. Where the source tells its bytes, it
/// refuses exactly where they are no block file. ReadFault only where the source counted a fault in this call; each other answer leaves the count as it was.
pub fn read_layout<R: Ranged>(alloc: Global, source: &mut R) -> Result<Layout, FileError>
    ensures same { R.bytes source.new ≡ R.bytes source.old }
    ensures quiet { IfOk result (λ _. R.faults source.new ≡ R.faults source.old) }
    ensures counts { IfErr result (λ error. CountsFailure error (R.faults source.old) (R.faults source.new)) }
    ensures opens { WhereBytes (R.bytes source.old) (λ bytes. OpensBytes bytes result) }
{
    if !has_mark(alloc, source)? {
        return Err(FileError::BadMagic);
    }
    let Some((header, front)) = header_front(alloc, source)? else {
        return Err(FileError::BadHeader);
    };
    let layout = Layout::of_header(alloc, header, front)?;
    let ends = ends_well(&layout, source)?;
    where_it_ends(layout, ends)
}

/// The layout, where the bytes end where its last range does.
fn where_it_ends(layout: Layout, ends: bool) -> Result<Layout, FileError>
    ensures { result ≡ cond ends (Ok layout) (Err FileError.BadEnd) }
{
    if ends {
        Ok(layout)
    } else {
        Err(FileError::BadEnd)
    }
}

/// Whether the bytes of a source, which has the mark and the header, end where the last range does.
fn ends_well<R: Ranged>(layout: &Layout, source: &mut R) -> Result<bool, RangeFailed>
    ensures told { TellsBytes (R.bytes source.old) }
    ensures same { R.bytes source.new ≡ R.bytes source.old }
    ensures cause { HasCause (R.faults source.old) (R.faults source.new) result }
    ensures quiet { IfOk result (λ _. R.faults source.new ≡ R.faults source.old) }
    ensures ends { IfOk result (λ well. WhereBytes (R.bytes source.old) (EndsWell layout.now well)) }
{
    let end = layout.end();
    if has_byte_at(source, end)? {
        return Ok(false);
    }
    has_byte_at(source, end - 1)
}
