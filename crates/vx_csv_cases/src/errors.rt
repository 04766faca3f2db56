// Why a row can't be tried.
use hex::FromHexError;
use serde_json::Error as JsonError;
use std::alloc::{AllocError, AllocFailed};
use thiserror::Error;
use vx_dtype::NoMemory;
use vx_text::TextError;

/// Why a row can't be tried.
#[derive(Debug, Drop, Error)]
pub(crate) enum CaseError {
    /// There is no memory.
    #[error("NoMemory")]
    NoMemory,
    /// The table is no JSON.
    #[error("{0}")]
    Json(JsonError),
    /// A text of the row is no hexadecimal digits of bytes.
    #[error("no bytes")]
    NoBytes,
    /// The columns of the row are no type.
    #[error("{0}")]
    Text(TextError),
    /// The row tells no columns.
    #[error("no columns")]
    NoColumns,
}

impl From<NoMemory> for CaseError {
    fn from(_: NoMemory) -> CaseError {
        CaseError::NoMemory
    }
}

impl<T: Drop> From<AllocFailed<T>> for CaseError {
    fn from(_: AllocFailed<T>) -> CaseError {
        CaseError::NoMemory
    }
}

impl From<AllocError> for CaseError {
    fn from(_: AllocError) -> CaseError {
        CaseError::NoMemory
    }
}

impl From<JsonError> for CaseError {
    fn from(error: JsonError) -> CaseError {
        CaseError::Json(error)
    }
}

impl From<FromHexError> for CaseError {
    fn from(error: FromHexError) -> CaseError {
        match error {
            FromHexError::OutOfMemory => CaseError::NoMemory,
            _ => CaseError::NoBytes,
        }
    }
}

impl From<TextError> for CaseError {
    fn from(error: TextError) -> CaseError {
        match error {
            TextError::NoMemory => CaseError::NoMemory,
            _ => CaseError::Text(error),
        }
    }
}
