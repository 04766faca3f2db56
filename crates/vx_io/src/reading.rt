// Reading a source to its end, or to a limit.
ghost use Rattle.std.specs.Prelude.{◌≡◌, ◌<◌, ◌≤◌, length, IfOk, Err};
ghost use Rattle.vx_io.specs.Counts.{one_more};
ghost use Rattle.vx_io.specs.Ends.{TookPart, TookUpTo};

use crate::sources::{ReadFailed, Source};
use std::alloc::{AllocError, Global};

/// Why an input isn't read.
#[derive(PartialEq, Eq, Debug, Drop)]
pub enum InputError {
    /// There was no memory for the bytes: only where the source counted no fault in this call.
    NoMemory,
    /// A read failed: only where the source counted a fault in this call.
    ReadFault,
}

impl From<AllocError> for InputError {
    ghost use Rattle.vx_io.specs.declared.reading.InputError.TheVariants.{NoMemory as OutOfMemory};
    ghost use Rattle.std.specs.Prelude.{◌≡◌};

    ghost from_gives = { λ _ e. e ≡ OutOfMemory };

    fn from(_error: AllocError) -> InputError {
        InputError::NoMemory
    }
}

impl From<ReadFailed> for InputError {
    ghost use Rattle.vx_io.specs.declared.reading.InputError.TheVariants.{ReadFault as Failed};
    ghost use Rattle.std.specs.Prelude.{◌≡◌};

    ghost from_gives = { λ _ e. e ≡ Failed };

    fn from(_error: ReadFailed) -> InputError {
        InputError::ReadFault
    }
}

/// How many bytes a read asks for at most.
const CHUNK: usize = 65536;

/// The bytes of a source, at most `most` of them: fewer only where it has no more. A read asks for 64 KiB at most. After
/// a refusal a first part of the bytes to come was taken, and what was taken is lost.
pub fn read_up_to<I: Source>(
    alloc: Global,
    most: usize,
    input: &mut I,
) -> Result<Vec<u8>, InputError>
    ensures taken { IfOk result (λ bytes. TookUpTo most (I.left input.old) (I.left input.new) bytes.items) }
    ensures within { IfOk result (λ bytes. length bytes.items ≤ most) }
    ensures part { TookPart most (I.left input.old) (I.left input.new) }
    ensures later { I.faults input.old ≤ I.faults input.new }
    ensures cause { result ≡ Err InputError.ReadFault → one_more (I.faults input.old) ≤ I.faults input.new }
    ensures quiet { IfOk result (λ _. I.faults input.new ≡ I.faults input.old) }
    ensures memory { result ≡ Err InputError.NoMemory → I.faults input.new ≡ I.faults input.old }
{
    let mut chunk = vec![in alloc; 0u8; CHUNK]?;
    read_by(alloc, most, input, chunk.as_mut_slice())
}

/// The same, through a buffer that isn't empty: a read asks for as many bytes as it holds at most.
fn read_by<I: Source>(
    alloc: Global,
    most: usize,
    input: &mut I,
    chunk: &mut [u8],
) -> Result<Vec<u8>, InputError>
    requires { 0 < length chunk.old }
    ensures taken { IfOk result (λ bytes. TookUpTo most (I.left input.old) (I.left input.new) bytes.items) }
    ensures within { IfOk result (λ bytes. length bytes.items ≤ most) }
    ensures part { TookPart most (I.left input.old) (I.left input.new) }
    ensures later { I.faults input.old ≤ I.faults input.new }
    ensures cause { result ≡ Err InputError.ReadFault → one_more (I.faults input.old) ≤ I.faults input.new }
    ensures quiet { IfOk result (λ _. I.faults input.new ≡ I.faults input.old) }
    ensures memory { result ≡ Err InputError.NoMemory → I.faults input.new ≡ I.faults input.old }
{
    let mut bytes = Vec::new(alloc);
    'chunks: while bytes.len() < most {
        let want = (most - bytes.len()).min(chunk.len());
        let n = input.read(&mut chunk[..want])?;
        if n == 0 {
            return Ok(bytes);
        }
        bytes.extend_from_slice(&chunk[..n])?;
    }
    Ok(bytes)
}
