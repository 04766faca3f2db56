// Why no file is written.
ghost use Rattle.std.specs.Prelude.{◌≡◌};

use std::alloc::{AllocError, AllocFailed};
use vx_dtype::NoMemory;

/// Why no file of a table is written.
#[derive(PartialEq, Eq, Debug, Drop)]
pub enum WriteFileError {
    /// There was no memory.
    NoMemory,
    /// Exactly where the number of blocks, of a block's columns or of a column's rows differs from the zones'.
    WrongLength,
    /// Exactly where those agree, and a column's type differs from the zones'.
    WrongType,
    /// Exactly where those agree too, and a text, a list, the range of a column or the header has 2^32 or more, or the blocks have more than
    /// 1,048,576 rows together.
    TooLong,
}

impl From<AllocError> for WriteFileError {
    ghost use Rattle.vx_file_bytes.specs.declared.errors.WriteFileError.TheVariants.{NoMemory as OutOfMemory};

    ghost from_gives = { λ _ e. e ≡ OutOfMemory };

    fn from(_error: AllocError) -> WriteFileError {
        WriteFileError::NoMemory
    }
}

impl<T: Drop> From<AllocFailed<T>> for WriteFileError {
    ghost use Rattle.vx_file_bytes.specs.declared.errors.WriteFileError.TheVariants.{NoMemory as OutOfMemory};

    ghost from_gives = { λ _ e. e ≡ OutOfMemory };

    fn from(_error: AllocFailed<T>) -> WriteFileError {
        WriteFileError::NoMemory
    }
}

impl From<NoMemory> for WriteFileError {
    ghost use Rattle.vx_file_bytes.specs.declared.errors.WriteFileError.TheVariants.{NoMemory as OutOfMemory};

    ghost from_gives = { λ _ e. e ≡ OutOfMemory };

    fn from(_error: NoMemory) -> WriteFileError {
        WriteFileError::NoMemory
    }
}
