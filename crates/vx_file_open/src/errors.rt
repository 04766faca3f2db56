// Why a file isn't opened.
ghost use Rattle.std.specs.Prelude.{◌≡◌};

use std::alloc::{AllocError, AllocFailed};
use vx_dtype::NoMemory;
use vx_file_ranges::{PieceError, RangeFailed};
use vx_zones::ZoneError;

/// Why a file isn't opened. Where the source tells its bytes, the refusals but the first two come in this order, each exactly where it says.
#[derive(PartialEq, Eq, Debug, Drop)]
pub enum FileError {
    /// There was no memory.
    NoMemory,
    /// A read failed: only where the source counted a fault in this call.
    ReadFault,
    /// The first eight bytes aren't the mark of a file.
    BadMagic,
    /// No number and header of that many bytes follow.
    BadHeader,
    /// The statistics break a rule: a name, or a statistic, stands twice.
    BadZones(ZoneError),
    /// The last range doesn't end where the bytes end.
    BadEnd,
}

impl From<AllocError> for FileError {
    ghost use Rattle.vx_file_open.specs.declared.errors.FileError.TheVariants.{NoMemory as OutOfMemory};

    ghost from_gives = { λ _ e. e ≡ OutOfMemory };

    fn from(_error: AllocError) -> FileError {
        FileError::NoMemory
    }
}

impl<T: Drop> From<AllocFailed<T>> for FileError {
    ghost use Rattle.vx_file_open.specs.declared.errors.FileError.TheVariants.{NoMemory as OutOfMemory};

    ghost from_gives = { λ _ e. e ≡ OutOfMemory };

    fn from(_error: AllocFailed<T>) -> FileError {
        FileError::NoMemory
    }
}

impl From<NoMemory> for FileError {
    ghost use Rattle.vx_file_open.specs.declared.errors.FileError.TheVariants.{NoMemory as OutOfMemory};

    ghost from_gives = { λ _ e. e ≡ OutOfMemory };

    fn from(_error: NoMemory) -> FileError {
        FileError::NoMemory
    }
}

impl From<RangeFailed> for FileError {
    ghost use Rattle.vx_file_open.specs.declared.errors.FileError.TheVariants.{ReadFault as Failed};

    ghost from_gives = { λ _ e. e ≡ Failed };

    fn from(_error: RangeFailed) -> FileError {
        FileError::ReadFault
    }
}

impl From<PieceError> for FileError {
    ghost use Rattle.vx_file_open.specs.OpenAnswers.{file_error};

    ghost from_gives = { λ error e. e ≡ file_error error };

    fn from(error: PieceError) -> FileError {
        match error {
            PieceError::NoMemory => FileError::NoMemory,
            PieceError::ReadFault => FileError::ReadFault,
        }
    }
}
