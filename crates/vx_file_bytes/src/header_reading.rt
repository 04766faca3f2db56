// The header of a block file, read.
ghost use Rattle.std.specs.Prelude.{◌≡◌, IfOk, option_map};
ghost use Rattle.vx_laws_file.specs.HeaderReading.{header_at};
ghost use Rattle.vx_file_bytes.specs.HeaderViews.{header_view};
ghost use Rattle.vx_file_bytes.specs.ReadingAnswers.{IsHeaderRead};

use crate::columns_reading::{columns_front, lengths_front, range_lengths_front};
use crate::headers::FileHeader;
use crate::statistics_reading::statistics_front;
use std::alloc::Global;
use vx_dtype::Mem;

/// The header at the front, and the bytes after it.
#[tactic(auto, unfolding(vx_laws_file::specs::HeaderReading::header_at))]
fn header_front(alloc: Global, bytes: &[u8]) -> Mem<Option<(FileHeader, &[u8])>>
    ensures { IfOk result (λ found. option_map (λ x. (header_view x.0, x.1.now)) found ≡ header_at bytes.now) }
{
    let Some((fields, rest)) = columns_front(alloc, bytes)? else {
        return Ok(None);
    };
    let Some((lengths, rest)) = lengths_front(alloc, rest)? else {
        return Ok(None);
    };
    let Some((stats, rest)) = statistics_front(alloc, &fields, lengths.as_slice(), rest)? else {
        return Ok(None);
    };
    let Some((range_lengths, rest)) = range_lengths_front(
        alloc,
        lengths.len(),
        fields.nfields(),
        rest,
    )?
    else {
        return Ok(None);
    };
    let header = FileHeader {
        fields,
        lengths,
        stats,
        range_lengths,
    };
    Ok(Some((header, rest)))
}

/// The header that these bytes spell, which stand behind the mark of a file and their number. None exactly where they spell none. No memory is taken for
/// items that aren't there, whatever numbers of them the bytes name.
pub fn read_header(alloc: Global, bytes: &[u8]) -> Mem<Option<FileHeader>>
    ensures { IfOk result (λ found. IsHeaderRead bytes.now (option_map header_view found)) }
{
    let Some((header, rest)) = header_front(alloc, bytes)? else {
        return Ok(None);
    };
    if !rest.is_empty() {
        return Ok(None);
    }
    Ok(Some(header))
}
