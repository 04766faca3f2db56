// Why columns, lengths and statistics are no zones.
ghost use Rattle.std.specs.Prelude.{◌≡◌};

use std::alloc::{AllocError, AllocFailed};
use vx_dtype::NoMemory;

/// Why columns, lengths and statistics are no zones: the first rule that they break, in this order.
#[derive(PartialEq, Eq, Debug, Drop)]
pub enum ZoneError {
    /// There was no memory.
    NoMemory,
    /// Two fields of a struct have one name, at any depth, the table's own columns included.
    DuplicateName,
    /// A column's type is deeper than 64.
    DeepType,
    /// A path leads through struct fields to no plain field, or a statistic counts what is no number.
    BadStatPath,
    /// One path has one statistic twice.
    DuplicateStat,
    /// A statistic hasn't one value per block.
    WrongStatCount,
    /// The type of a value isn't the statistic's, made nullable.
    WrongStatType,
}

impl From<AllocError> for ZoneError {
    ghost use Rattle.vx_zones.specs.declared.errors.ZoneError.TheVariants.{NoMemory as OutOfMemory};

    ghost from_gives = { λ _ e. e ≡ OutOfMemory };

    fn from(_error: AllocError) -> ZoneError {
        ZoneError::NoMemory
    }
}

impl<T: Drop> From<AllocFailed<T>> for ZoneError {
    ghost use Rattle.vx_zones.specs.declared.errors.ZoneError.TheVariants.{NoMemory as OutOfMemory};

    ghost from_gives = { λ _ e. e ≡ OutOfMemory };

    fn from(_error: AllocFailed<T>) -> ZoneError {
        ZoneError::NoMemory
    }
}

impl From<NoMemory> for ZoneError {
    ghost use Rattle.vx_zones.specs.declared.errors.ZoneError.TheVariants.{NoMemory as OutOfMemory};

    ghost from_gives = { λ _ e. e ≡ OutOfMemory };

    fn from(_error: NoMemory) -> ZoneError {
        ZoneError::NoMemory
    }
}
