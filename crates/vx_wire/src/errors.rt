// Why a tree builds nothing.
ghost use Rattle.std.specs.Prelude.{◌≡◌};

use std::alloc::{AllocError, AllocFailed};
use thiserror::Error;
use vx_dtype::NoMemory;

/// Why a wire tree builds no expression.
#[derive(PartialEq, Eq, Debug, Drop, Error)]
pub enum BuildError {
    /// There was no memory for the expression.
    #[error("NoMemory")]
    NoMemory,
    /// No kind of this name is registered.
    #[error("UnknownExpr")]
    UnknownExpr,
    /// The metadata is no spelling of the kind's.
    #[error("BadMetadata")]
    BadMetadata,
    /// The node has more or fewer children than its kind takes.
    #[error("WrongChildren")]
    WrongChildren,
}

impl From<AllocError> for BuildError {
    ghost use Rattle.vx_wire.specs.declared.errors.BuildError.TheVariants.{NoMemory as OutOfMemory};

    ghost from_gives = { λ _ e. e ≡ OutOfMemory };

    fn from(_error: AllocError) -> BuildError {
        BuildError::NoMemory
    }
}

impl<T: Drop> From<AllocFailed<T>> for BuildError {
    ghost use Rattle.vx_wire.specs.declared.errors.BuildError.TheVariants.{NoMemory as OutOfMemory};

    ghost from_gives = { λ _ e. e ≡ OutOfMemory };

    fn from(_error: AllocFailed<T>) -> BuildError {
        BuildError::NoMemory
    }
}

impl From<NoMemory> for BuildError {
    ghost use Rattle.vx_wire.specs.declared.errors.BuildError.TheVariants.{NoMemory as OutOfMemory};

    ghost from_gives = { λ _ e. e ≡ OutOfMemory };

    fn from(_error: NoMemory) -> BuildError {
        BuildError::NoMemory
    }
}
