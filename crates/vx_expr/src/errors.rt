// Why an expression isn't made or taken apart.
ghost use Rattle.std.specs.Prelude.{◌≡◌};

use std::alloc::{AllocError, AllocFailed};
use thiserror::Error;
use vx_dtype::NoMemory;

/// Why an expression isn't made or taken apart.
#[derive(PartialEq, Eq, Debug, Drop, Error)]
pub enum ExprError {
    /// There was no memory for the answer.
    #[error("NoMemory")]
    NoMemory,
    /// Exactly where there are more or fewer children than the node has.
    #[error("WrongChildren")]
    WrongChildren,
    /// Exactly where there are more or fewer values than names.
    #[error("WrongLength")]
    WrongLength,
    /// Exactly where a name isn't among the names.
    #[error("UnknownField")]
    UnknownField,
    /// Exactly where a number is none of an operator.
    #[error("UnknownOperator")]
    UnknownOperator,
    /// Exactly where an operator is no comparison.
    #[error("NotComparison")]
    NotComparison,
}

impl From<AllocError> for ExprError {
    ghost use Rattle.vx_expr.specs.declared.errors.ExprError.TheVariants.{NoMemory as OutOfMemory};

    ghost from_gives = { λ _ e. e ≡ OutOfMemory };

    fn from(_error: AllocError) -> ExprError {
        ExprError::NoMemory
    }
}

impl<T: Drop> From<AllocFailed<T>> for ExprError {
    ghost use Rattle.vx_expr.specs.declared.errors.ExprError.TheVariants.{NoMemory as OutOfMemory};

    ghost from_gives = { λ _ e. e ≡ OutOfMemory };

    fn from(_error: AllocFailed<T>) -> ExprError {
        ExprError::NoMemory
    }
}

impl From<NoMemory> for ExprError {
    ghost use Rattle.vx_expr.specs.declared.errors.ExprError.TheVariants.{NoMemory as OutOfMemory};

    ghost from_gives = { λ _ e. e ≡ OutOfMemory };

    fn from(_error: NoMemory) -> ExprError {
        ExprError::NoMemory
    }
}
