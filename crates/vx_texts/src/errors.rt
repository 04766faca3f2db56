// Why texts aren't taken.
ghost use Rattle.std.specs.Prelude.{◌≡◌};

use std::alloc::{AllocError, AllocFailed};
use thiserror::Error;
use vx_dtype::NoMemory;

/// Why texts aren't taken into a list.
#[derive(PartialEq, Eq, Debug, Drop, Error)]
pub enum TextsError {
    /// There was no memory for the answer.
    #[error("NoMemory")]
    NoMemory,
    /// Exactly where the texts have 2^32 bytes together, or more.
    #[error("TooLong")]
    TooLong,
}

impl From<AllocError> for TextsError {
    ghost use Rattle.vx_texts.specs.declared.errors.TextsError.TheVariants.{NoMemory as OutOfMemory};

    ghost from_gives = { λ _ e. e ≡ OutOfMemory };

    fn from(_error: AllocError) -> TextsError {
        TextsError::NoMemory
    }
}

impl<T: Drop> From<AllocFailed<T>> for TextsError {
    ghost use Rattle.vx_texts.specs.declared.errors.TextsError.TheVariants.{NoMemory as OutOfMemory};

    ghost from_gives = { λ _ e. e ≡ OutOfMemory };

    fn from(_error: AllocFailed<T>) -> TextsError {
        TextsError::NoMemory
    }
}

impl From<NoMemory> for TextsError {
    ghost use Rattle.vx_texts.specs.declared.errors.TextsError.TheVariants.{NoMemory as OutOfMemory};

    ghost from_gives = { λ _ e. e ≡ OutOfMemory };

    fn from(_error: NoMemory) -> TextsError {
        TextsError::NoMemory
    }
}
