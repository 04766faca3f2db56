// Why an expression isn't rewritten.
ghost use Rattle.std.specs.Prelude.{◌≡◌};

use std::alloc::{AllocError, AllocFailed};
use thiserror::Error;
use vx_dtype::NoMemory;

/// Why a pass refuses an expression: the refusal of the first node in post-order that the pass can't make anew.
#[derive(PartialEq, Eq, Debug, Drop, Error)]
pub enum TransformError {
    /// There was no memory for the answer.
    #[error("NoMemory")]
    NoMemory,
    /// A name isn't among the struct's fields, an excluded name included.
    #[error("UnknownField")]
    UnknownField,
    /// A field or fields are asked of what is no struct, or what is no struct is merged.
    #[error("NotStruct")]
    NotStruct,
    /// Fields are selected from a struct that may be null.
    #[error("NullableSelect")]
    NullableSelect,
    /// A type is none that the node asks for.
    #[error("TypeMismatch")]
    TypeMismatch,
}

impl From<AllocError> for TransformError {
    ghost use Rattle.vx_transform.specs.declared.errors.TransformError.TheVariants.{NoMemory as OutOfMemory};

    ghost from_gives = { λ _ e. e ≡ OutOfMemory };

    fn from(_error: AllocError) -> TransformError {
        TransformError::NoMemory
    }
}

impl<T: Drop> From<AllocFailed<T>> for TransformError {
    ghost use Rattle.vx_transform.specs.declared.errors.TransformError.TheVariants.{NoMemory as OutOfMemory};

    ghost from_gives = { λ _ e. e ≡ OutOfMemory };

    fn from(_error: AllocFailed<T>) -> TransformError {
        TransformError::NoMemory
    }
}

impl From<NoMemory> for TransformError {
    ghost use Rattle.vx_transform.specs.declared.errors.TransformError.TheVariants.{NoMemory as OutOfMemory};

    ghost from_gives = { λ _ e. e ≡ OutOfMemory };

    fn from(_error: NoMemory) -> TransformError {
        TransformError::NoMemory
    }
}
