// Why a row can't be tried.
use serde_json::Error as JsonError;
use std::alloc::{AllocError, AllocFailed};
use thiserror::Error;
use vx_column::ColumnError;
use vx_dtype::NoMemory;
use vx_text::TextError;

/// Why a row can't be tried.
#[derive(Debug, Drop, Error)]
pub(crate) enum CaseError {
    /// There is no memory.
    #[error("NoMemory")]
    NoMemory,
    /// The table is no JSON.
    #[error("{0}")]
    Json(JsonError),
    /// The words of the row make no column.
    #[error("{0:?}")]
    Column(ColumnError),
    /// A text of the row is no query.
    #[error("{0}")]
    Text(TextError),
    /// The row asks what the call's arguments don't allow, or names no call.
    #[error("not asked")]
    NotAsked,
}

impl From<NoMemory> for CaseError {
    fn from(_: NoMemory) -> CaseError {
        CaseError::NoMemory
    }
}

impl<T: Drop> From<AllocFailed<T>> for CaseError {
    fn from(_: AllocFailed<T>) -> CaseError {
        CaseError::NoMemory
    }
}

impl From<AllocError> for CaseError {
    fn from(_: AllocError) -> CaseError {
        CaseError::NoMemory
    }
}

impl From<JsonError> for CaseError {
    fn from(error: JsonError) -> CaseError {
        CaseError::Json(error)
    }
}

impl From<TextError> for CaseError {
    fn from(error: TextError) -> CaseError {
        match error {
            TextError::NoMemory => CaseError::NoMemory,
            _ => CaseError::Text(error),
        }
    }
}

impl From<ColumnError> for CaseError {
    fn from(error: ColumnError) -> CaseError {
        match error {
            ColumnError::NoMemory => CaseError::NoMemory,
            _ => CaseError::Column(error),
        }
    }
}
