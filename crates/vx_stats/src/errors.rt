// Why no statistics are built.
ghost use Rattle.std.specs.Prelude.{◌≡◌};

use std::alloc::{AllocError, AllocFailed};
use vx_dtype::NoMemory;

/// Why no statistics are built.
#[derive(PartialEq, Eq, Debug, Drop)]
pub enum StatsError {
    /// There was no memory.
    NoMemory,
    /// Exactly where the number of blocks, of a block's columns or of a column's rows differs from the zones'.
    WrongLength,
    /// Exactly where those agree, and a column's type differs from the zones'.
    WrongType,
}

impl From<AllocError> for StatsError {
    ghost use Rattle.vx_stats.specs.declared.errors.StatsError.TheVariants.{NoMemory as OutOfMemory};

    ghost from_gives = { λ _ e. e ≡ OutOfMemory };

    fn from(_error: AllocError) -> StatsError {
        StatsError::NoMemory
    }
}

impl<T: Drop> From<AllocFailed<T>> for StatsError {
    ghost use Rattle.vx_stats.specs.declared.errors.StatsError.TheVariants.{NoMemory as OutOfMemory};

    ghost from_gives = { λ _ e. e ≡ OutOfMemory };

    fn from(_error: AllocFailed<T>) -> StatsError {
        StatsError::NoMemory
    }
}

impl From<NoMemory> for StatsError {
    ghost use Rattle.vx_stats.specs.declared.errors.StatsError.TheVariants.{NoMemory as OutOfMemory};

    ghost from_gives = { λ _ e. e ≡ OutOfMemory };

    fn from(_error: NoMemory) -> StatsError {
        StatsError::NoMemory
    }
}
