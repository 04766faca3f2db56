// Want of memory, and what it is beside in the errors of this crate.
ghost use Rattle.std.specs.Prelude.{◌≡◌};

use std::alloc::{AllocError, AllocFailed};
use thiserror::Error;

/// There was no memory for the answer.
#[derive(PartialEq, Eq, Debug, Drop, Error)]
#[error("NoMemory")]
pub struct NoMemory;

/// The answer of a call that takes memory and has no other refusal.
pub type Mem<T> = Result<T, NoMemory>;

/// Why fields aren't taken out of a struct's.
#[derive(PartialEq, Eq, Debug, Drop, Error)]
pub enum FieldsError {
    /// There was no memory for the answer.
    #[error("NoMemory")]
    NoMemory,
    /// Exactly where a name isn't among the fields'.
    #[error("UnknownField")]
    UnknownField,
}

impl From<AllocError> for NoMemory {
    fn from(_error: AllocError) -> NoMemory {
        NoMemory
    }
}

impl<T: Drop> From<AllocFailed<T>> for NoMemory {
    fn from(_error: AllocFailed<T>) -> NoMemory {
        NoMemory
    }
}

impl From<AllocError> for FieldsError {
    ghost use Rattle.vx_dtype.specs.declared.memory.FieldsError.TheVariants.{NoMemory as OutOfMemory};

    ghost from_gives = { λ _ e. e ≡ OutOfMemory };

    fn from(_error: AllocError) -> FieldsError {
        FieldsError::NoMemory
    }
}

impl<T: Drop> From<AllocFailed<T>> for FieldsError {
    ghost use Rattle.vx_dtype.specs.declared.memory.FieldsError.TheVariants.{NoMemory as OutOfMemory};

    ghost from_gives = { λ _ e. e ≡ OutOfMemory };

    fn from(_error: AllocFailed<T>) -> FieldsError {
        FieldsError::NoMemory
    }
}

impl From<NoMemory> for FieldsError {
    ghost use Rattle.vx_dtype.specs.declared.memory.FieldsError.TheVariants.{NoMemory as OutOfMemory};

    ghost from_gives = { λ _ e. e ≡ OutOfMemory };

    fn from(_error: NoMemory) -> FieldsError {
        FieldsError::NoMemory
    }
}
