// The mark and the header at the front of a source.
ghost use Rattle.std.specs.Prelude.{◌≡◌, ◌≤◌, Decides, Err, IfOk, option_map};
ghost use Rattle.vx_io.specs.Counts.{one_more};
ghost use Rattle.vx_laws_file.specs.Opening.{HasMark};
ghost use Rattle.vx_file_bytes.specs.HeaderViews.{header_view};
ghost use Rattle.vx_file_open.specs.Layouts.{WhereBytes};
ghost use Rattle.vx_file_open.specs.OpenAnswers.{IsNumberFound, NumberStands, IsFrontFound, FrontStands};

use std::alloc::Global;
use vx_file_bytes::{FileHeader, read_header};
use vx_file_ranges::{PieceError, Ranged, read_piece};
use vx_wire_bytes::read_number;

/// The first bytes of each file.
const MARK: &str = "VXBLK001";

/// How many bytes a number has at most.
const NUMBER: usize = 5;

/// Whether the bytes of a source begin with the mark.
pub(crate) fn has_mark<R: Ranged>(alloc: Global, source: &mut R) -> Result<bool, PieceError>
    ensures same { R.bytes source.new ≡ R.bytes source.old }
    ensures later { R.faults source.old ≤ R.faults source.new }
    ensures cause { result ≡ Err PieceError.ReadFault → one_more (R.faults source.old) ≤ R.faults source.new }
    ensures quiet { IfOk result (λ _. R.faults source.new ≡ R.faults source.old) }
    ensures memory { result ≡ Err PieceError.NoMemory → R.faults source.new ≡ R.faults source.old }
    ensures there { IfOk result (λ found. WhereBytes (R.bytes source.old) (λ bytes. Decides found (HasMark bytes))) }
{
    let piece = read_piece(alloc, source, 0, MARK.len())?;
    Ok(piece.as_slice() == MARK.as_bytes())
}

/// The number that stands behind the mark, and the place behind it.
fn number_front<R: Ranged>(alloc: Global, source: &mut R) -> Result<Option<(u32, u64)>, PieceError>
    ensures same { R.bytes source.new ≡ R.bytes source.old }
    ensures later { R.faults source.old ≤ R.faults source.new }
    ensures cause { result ≡ Err PieceError.ReadFault → one_more (R.faults source.old) ≤ R.faults source.new }
    ensures quiet { IfOk result (λ _. R.faults source.new ≡ R.faults source.old) }
    ensures memory { result ≡ Err PieceError.NoMemory → R.faults source.new ≡ R.faults source.old }
    ensures found { IfOk result IsNumberFound }
    ensures stands { IfOk result (λ found. WhereBytes (R.bytes source.old) (NumberStands found)) }
{
    let piece = read_piece(alloc, source, MARK.len() as u64, NUMBER)?;
    match read_number(piece.as_slice(), 0) {
        Some((number, after)) => Ok(Some((number, (MARK.len() + after) as u64))),
        None => Ok(None),
    }
}

/// The header that stands behind the mark and its number of bytes, and the place behind it. Memory is taken for the bytes that are there, whatever the
/// number.
pub(crate) fn header_front<R: Ranged>(
    alloc: Global,
    source: &mut R,
) -> Result<Option<(FileHeader, u64)>, PieceError>
    ensures same { R.bytes source.new ≡ R.bytes source.old }
    ensures later { R.faults source.old ≤ R.faults source.new }
    ensures cause { result ≡ Err PieceError.ReadFault → one_more (R.faults source.old) ≤ R.faults source.new }
    ensures quiet { IfOk result (λ _. R.faults source.new ≡ R.faults source.old) }
    ensures memory { result ≡ Err PieceError.NoMemory → R.faults source.new ≡ R.faults source.old }
    ensures found { IfOk result (λ found. IsFrontFound (option_map (λ x. (header_view x.0, x.1)) found)) }
    ensures stands { IfOk result (λ found. WhereBytes (R.bytes source.old)
        (λ bytes. HasMark bytes → FrontStands (option_map (λ x. (header_view x.0, x.1)) found) bytes)) }
{
    let Some((number, place)) = number_front(alloc, source)? else {
        return Ok(None);
    };
    let count = number as usize;
    let piece = read_piece(alloc, source, place, count)?;
    if piece.len() < count {
        return Ok(None);
    }
    let Some(header) = read_header(alloc, piece.as_slice())? else {
        return Ok(None);
    };
    Ok(Some((header, place + number as u64)))
}
