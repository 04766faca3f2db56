// Why a case can't be tried.
use hex::FromHexError;
use serde_json::Error as JsonError;
use std::alloc::{AllocError, AllocFailed};
use thiserror::Error;
use vx_column::ColumnError;
use vx_dtype::NoMemory;
use vx_expr::ExprError;
use vx_request::RequestError;
use vx_scan::{ScanError, TableError};
use vx_text::TextError;
use vx_wire::BuildError;
use vx_wire_bytes::WireError;

/// Why a case can't be tried.
#[derive(Debug, Drop, Error)]
pub(crate) enum CaseError {
    /// There is no memory.
    #[error("NoMemory")]
    NoMemory,
    /// The table of cases is no JSON.
    #[error("{0}")]
    Json(JsonError),
    /// The request of the case is refused.
    #[error("{0:?}")]
    Request(RequestError),
    /// A text of the case is no hexadecimal digits of bytes.
    #[error("no bytes")]
    NoBytes,
    /// A text of the case is no expression.
    #[error("{0}")]
    Wire(WireError),
    /// A tree of the case builds no expression.
    #[error("{0}")]
    Build(BuildError),
    /// A text of the row is no query, or none of the kind that its call asks.
    #[error("{0}")]
    Text(TextError),
    /// The expression of the row isn't made.
    #[error("{0}")]
    Expr(ExprError),
    /// The columns of the case make no rows.
    #[error("{0:?}")]
    Column(ColumnError),
    /// The blocks of the case make no table.
    #[error("{0:?}")]
    Table(TableError),
    /// The scan of the case, whose reads are to fail in turn, has no report.
    #[error("{0:?}")]
    Scan(ScanError),
    /// What the program wrote is no text.
    #[error("no text")]
    NoText,
    /// The table of the case has no block, or not the column that the expressions are to stand over.
    #[error("no rows")]
    NoRows,
}

impl From<NoMemory> for CaseError {
    fn from(_: NoMemory) -> CaseError {
        CaseError::NoMemory
    }
}

impl<T: Drop> From<AllocFailed<T>> for CaseError {
    fn from(_: AllocFailed<T>) -> CaseError {
        CaseError::NoMemory
    }
}

impl From<AllocError> for CaseError {
    fn from(_: AllocError) -> CaseError {
        CaseError::NoMemory
    }
}

impl From<JsonError> for CaseError {
    fn from(error: JsonError) -> CaseError {
        CaseError::Json(error)
    }
}

impl From<FromHexError> for CaseError {
    fn from(error: FromHexError) -> CaseError {
        match error {
            FromHexError::OutOfMemory => CaseError::NoMemory,
            FromHexError::OddLength => CaseError::NoBytes,
            FromHexError::InvalidHexCharacter { .. } => CaseError::NoBytes,
            FromHexError::InvalidStringLength => CaseError::NoBytes,
        }
    }
}

impl From<WireError> for CaseError {
    fn from(error: WireError) -> CaseError {
        CaseError::Wire(error)
    }
}

impl From<BuildError> for CaseError {
    fn from(error: BuildError) -> CaseError {
        CaseError::Build(error)
    }
}

impl From<TextError> for CaseError {
    fn from(error: TextError) -> CaseError {
        match error {
            TextError::NoMemory => CaseError::NoMemory,
            _ => CaseError::Text(error),
        }
    }
}

impl From<ExprError> for CaseError {
    fn from(error: ExprError) -> CaseError {
        match error {
            ExprError::NoMemory => CaseError::NoMemory,
            _ => CaseError::Expr(error),
        }
    }
}
