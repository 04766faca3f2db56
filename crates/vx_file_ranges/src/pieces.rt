// Reading a piece of a source.
ghost use Rattle.std.specs.Prelude.{◌≡◌, ◌+◌, ◌^◌, ◌<◌, ◌≤◌, length, IfOk, Err};
ghost use Rattle.vx_io.specs.Counts.{one_more};
ghost use Rattle.vx_io.specs.Ends.{HasCause};
ghost use Rattle.vx_file_ranges.specs.Places.{TellsBytes, HasByteAt, IsPieceAt};

use crate::ranged::{RangeFailed, Ranged};
use std::alloc::{AllocError, Global};
use vx_dtype::NoMemory;

/// Why a piece isn't read.
#[derive(PartialEq, Eq, Debug, Drop)]
pub enum PieceError {
    /// There was no memory for the bytes.
    NoMemory,
    /// A read failed: only where the source counted a fault in this call.
    ReadFault,
}

impl From<AllocError> for PieceError {
    ghost use Rattle.vx_file_ranges.specs.declared.pieces.PieceError.TheVariants.{NoMemory as OutOfMemory};
    ghost use Rattle.std.specs.Prelude.{◌≡◌};

    ghost from_gives = { λ _ e. e ≡ OutOfMemory };

    fn from(_error: AllocError) -> PieceError {
        PieceError::NoMemory
    }
}

impl From<NoMemory> for PieceError {
    ghost use Rattle.vx_file_ranges.specs.declared.pieces.PieceError.TheVariants.{NoMemory as OutOfMemory};
    ghost use Rattle.std.specs.Prelude.{◌≡◌};

    ghost from_gives = { λ _ e. e ≡ OutOfMemory };

    fn from(_error: NoMemory) -> PieceError {
        PieceError::NoMemory
    }
}

impl From<RangeFailed> for PieceError {
    ghost use Rattle.vx_file_ranges.specs.declared.pieces.PieceError.TheVariants.{ReadFault as Failed};
    ghost use Rattle.std.specs.Prelude.{◌≡◌};

    ghost from_gives = { λ _ e. e ≡ Failed };

    fn from(_error: RangeFailed) -> PieceError {
        PieceError::ReadFault
    }
}

/// How many bytes a read asks for at most.
const CHUNK: usize = 65536;

/// Whether the source has a byte at a place.
pub fn has_byte_at<R: Ranged>(source: &mut R, place: u64) -> Result<bool, RangeFailed>
    ensures told { TellsBytes (R.bytes source.old) }
    ensures same { R.bytes source.new ≡ R.bytes source.old }
    ensures there { IfOk result (HasByteAt (R.bytes source.old) place) }
    ensures cause { HasCause (R.faults source.old) (R.faults source.new) result }
    ensures quiet { IfOk result (λ _. R.faults source.new ≡ R.faults source.old) }
{
    let mut byte = [0u8; 1];
    let n = source.read_at(place, &mut byte)?;
    Ok(n > 0)
}

/// The bytes of a source from a place on, so many: fewer only where it has no more. A read asks for 64 KiB at most, and memory is taken for what was
/// read, whatever number is asked.
pub fn read_piece<R: Ranged>(
    alloc: Global,
    source: &mut R,
    place: u64,
    count: usize,
) -> Result<Vec<u8>, PieceError>
    requires { place + count < 2 ^ 64 }
    ensures same { R.bytes source.new ≡ R.bytes source.old }
    ensures piece { IfOk result (λ piece. IsPieceAt (R.bytes source.old) place count piece.items) }
    ensures within { IfOk result (λ piece. length piece.items ≤ count) }
    ensures later { R.faults source.old ≤ R.faults source.new }
    ensures cause { result ≡ Err PieceError.ReadFault → one_more (R.faults source.old) ≤ R.faults source.new }
    ensures quiet { IfOk result (λ _. R.faults source.new ≡ R.faults source.old) }
    ensures memory { result ≡ Err PieceError.NoMemory → R.faults source.new ≡ R.faults source.old }
{
    let mut chunk = vec![in alloc; 0u8; count.clamp(1, CHUNK)]?;
    read_by(alloc, source, place, count, chunk.as_mut_slice())
}

/// The same, through a buffer that isn't empty: a read asks for as many bytes as it holds at most.
fn read_by<R: Ranged>(
    alloc: Global,
    source: &mut R,
    place: u64,
    count: usize,
    chunk: &mut [u8],
) -> Result<Vec<u8>, PieceError>
    requires places { place + count < 2 ^ 64 }
    requires room { 0 < length chunk.old }
    ensures same { R.bytes source.new ≡ R.bytes source.old }
    ensures piece { IfOk result (λ piece. IsPieceAt (R.bytes source.old) place count piece.items) }
    ensures within { IfOk result (λ piece. length piece.items ≤ count) }
    ensures later { R.faults source.old ≤ R.faults source.new }
    ensures cause { result ≡ Err PieceError.ReadFault → one_more (R.faults source.old) ≤ R.faults source.new }
    ensures quiet { IfOk result (λ _. R.faults source.new ≡ R.faults source.old) }
    ensures memory { result ≡ Err PieceError.NoMemory → R.faults source.new ≡ R.faults source.old }
{
    let mut bytes = Vec::new(alloc);
    'chunks: while bytes.len() < count {
        let want = (count - bytes.len()).min(chunk.len());
        let n = source.read_at(place + bytes.len() as u64, &mut chunk[..want])?;
        if n == 0 {
            return Ok(bytes);
        }
        bytes.extend_from_slice(&chunk[..n])?;
    }
    Ok(bytes)
}
