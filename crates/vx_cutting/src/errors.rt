// Why blocks are not cut anew.
ghost use Rattle.std.specs.Prelude.{◌≡◌};

use std::alloc::{AllocError, AllocFailed};
use vx_dtype::NoMemory;

/// Why blocks are not cut anew.
#[derive(PartialEq, Eq, Debug, Drop)]
pub enum CutError {
    /// There was no memory.
    NoMemory,
    /// Exactly where the number of blocks, of a block's columns or of a column's rows differs from the zones'.
    WrongLength,
    /// Exactly where those agree, and a column's type differs from the zones'.
    WrongType,
    /// Exactly where those agree too, and there would be 2^32 blocks or more.
    TooMany,
}

impl From<AllocError> for CutError {
    ghost use Rattle.vx_cutting.specs.declared.errors.CutError.TheVariants.{NoMemory as OutOfMemory};

    ghost from_gives = { λ _ e. e ≡ OutOfMemory };

    fn from(_error: AllocError) -> CutError {
        CutError::NoMemory
    }
}

impl<T: Drop> From<AllocFailed<T>> for CutError {
    ghost use Rattle.vx_cutting.specs.declared.errors.CutError.TheVariants.{NoMemory as OutOfMemory};

    ghost from_gives = { λ _ e. e ≡ OutOfMemory };

    fn from(_error: AllocFailed<T>) -> CutError {
        CutError::NoMemory
    }
}

impl From<NoMemory> for CutError {
    ghost use Rattle.vx_cutting.specs.declared.errors.CutError.TheVariants.{NoMemory as OutOfMemory};

    ghost from_gives = { λ _ e. e ≡ OutOfMemory };

    fn from(_error: NoMemory) -> CutError {
        CutError::NoMemory
    }
}
