// Why a text isn't read as an expression, or an expression isn't written as a text.
ghost use Rattle.std.specs.Prelude.{◌≡◌};

use std::alloc::{AllocError, AllocFailed};
use thiserror::Error;
use vx_dtype::NoMemory;

/// Why a text isn't read as an expression, or an expression isn't written as a text.
#[derive(Clone, Copy, PartialEq, Eq, Debug, Error)]
pub enum TextError {
    /// There was no memory for the answer.
    #[error("NoMemory")]
    NoMemory,
    /// The text has more than 1,048,576 bytes.
    #[error("TooLong")]
    TooLong,
    /// At some place of the text no token stands.
    #[error("BadToken")]
    BadToken,
    /// The text has more than 4,096 tokens.
    #[error("TooManyTokens")]
    TooManyTokens,
    /// The tokens are no query.
    #[error("BadQuery")]
    BadQuery,
    /// A number or an item isn't a value of its type.
    #[error("BadValue")]
    BadValue,
    /// A dynamic comparison stands in the expression.
    #[error("NotWritable")]
    NotWritable,
}

impl From<AllocError> for TextError {
    ghost use Rattle.vx_text.specs.declared.errors.TextError.TheVariants.{NoMemory as OutOfMemory};

    ghost from_gives = { λ _ e. e ≡ OutOfMemory };

    fn from(_error: AllocError) -> TextError {
        TextError::NoMemory
    }
}

impl<T: Drop> From<AllocFailed<T>> for TextError {
    ghost use Rattle.vx_text.specs.declared.errors.TextError.TheVariants.{NoMemory as OutOfMemory};

    ghost from_gives = { λ _ e. e ≡ OutOfMemory };

    fn from(_error: AllocFailed<T>) -> TextError {
        TextError::NoMemory
    }
}

impl From<NoMemory> for TextError {
    ghost use Rattle.vx_text.specs.declared.errors.TextError.TheVariants.{NoMemory as OutOfMemory};

    ghost from_gives = { λ _ e. e ≡ OutOfMemory };

    fn from(_error: NoMemory) -> TextError {
        TextError::NoMemory
    }
}
