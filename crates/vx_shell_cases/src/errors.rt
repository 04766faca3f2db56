// Why a row can't be tried.
use hex::FromHexError;
use serde_json::Error as JsonError;
use std::alloc::{AllocError, AllocFailed};
use thiserror::Error;
use vx_dtype::NoMemory;

/// Why a row can't be tried.
#[derive(Debug, Drop, Error)]
pub(crate) enum CaseError {
    /// There is no memory.
    #[error("NoMemory")]
    NoMemory,
    /// The table is no JSON.
    #[error("{0}")]
    Json(JsonError),
    /// A text of the row is no hexadecimal digits of bytes.
    #[error("no bytes")]
    NoBytes,
}

impl From<NoMemory> for CaseError {
    fn from(_: NoMemory) -> CaseError {
        CaseError::NoMemory
    }
}

impl<T: Drop> From<AllocFailed<T>> for CaseError {
    fn from(_: AllocFailed<T>) -> CaseError {
        CaseError::NoMemory
    }
}

impl From<AllocError> for CaseError {
    fn from(_: AllocError) -> CaseError {
        CaseError::NoMemory
    }
}

impl From<JsonError> for CaseError {
    fn from(error: JsonError) -> CaseError {
        CaseError::Json(error)
    }
}

impl From<FromHexError> for CaseError {
    fn from(error: FromHexError) -> CaseError {
        match error {
            FromHexError::OutOfMemory => CaseError::NoMemory,
            FromHexError::OddLength => CaseError::NoBytes,
            FromHexError::InvalidHexCharacter { .. } => CaseError::NoBytes,
            FromHexError::InvalidStringLength => CaseError::NoBytes,
        }
    }
}
