// Opening a block file.
ghost use Rattle.std.specs.Prelude.{◌≡◌, IfOk, IfErr};
ghost use Rattle.vx_file_open.specs.Layouts.{WhereBytes, IsFileWith};
ghost use Rattle.vx_file_open.specs.OpenAnswers.{IsRefusedBy, refusal_of, CountsFailure};
ghost use Rattle.vx_file.specs.FileStates.{IsNewFile};

use crate::block_file::BlockFile;
use std::alloc::Global;
use vx_file_open::{FileError, read_layout};
use vx_file_ranges::Ranged;

/// A file that isn't opened: why, and its source again, which tells the bytes that it told before.
#[derive(Drop)]
pub struct OpenRefused<R> {
    pub error: FileError,
    pub source: R,
}

/// Opens the block file that a source holds: reads its mark and its header, and whether the last range ends where the bytes end. Of the ranges nothing is
/// read but the last byte, and memory is taken for the header that is there, whatever it promises.
///
/// ReadFault only where the source counted a fault in this call, as the source that is handed back shows; each other answer leaves the count as it was.
/// Where the source tells its bytes, each other refusal but NoMemory comes exactly where they are no block file for that reason.
pub fn open_file<R: Ranged>(alloc: Global, source: R) -> Result<BlockFile<R>, OpenRefused<R>>
    ensures opened { IfOk result (IsNewFile (R.bytes source) (R.faults source)) }
    ensures file { IfOk result (λ file. WhereBytes (R.bytes source) (IsFileWith file.header)) }
    ensures same { IfErr result (λ refused. R.bytes refused.source ≡ R.bytes source) }
    ensures counts { IfErr result (λ refused. CountsFailure refused.error (R.faults source) (R.faults refused.source)) }
    ensures refused { IfErr result (λ refused. WhereBytes (R.bytes source) (λ bytes. IsRefusedBy bytes (refusal_of refused.error))) }
{
    let mut source = source;
    match read_layout(alloc, &mut source) {
        Ok(layout) => Ok(BlockFile::of_layout(alloc, source, layout)),
        Err(error) => Err(OpenRefused { error, source }),
    }
}
