// Why an expression gives no column.
ghost use Rattle.std.specs.Prelude.{◌≡◌};

use std::alloc::{AllocError, AllocFailed};
use thiserror::Error;
use vx_column::ColumnError;
use vx_dtype::NoMemory;
use vx_typing::TypeError;

/// Why an expression gives no column.
#[derive(PartialEq, Eq, Debug, Drop, Error)]
pub enum EvalError {
    /// There was no memory for the answer.
    #[error("NoMemory")]
    NoMemory,
    /// The expression has no type over the rows, or the slot of a comparison doesn't fit. Never holds want of memory.
    #[error("Typing")]
    Typing(TypeError),
    /// A sum or difference has no value at a row at which its operands have one.
    #[error("Overflow")]
    Overflow,
    /// A cast has no value at a row at which its operand has one.
    #[error("BadCast")]
    BadCast,
}

impl From<AllocError> for EvalError {
    ghost use Rattle.vx_eval.specs.declared.errors.EvalError.TheVariants.{NoMemory as OutOfMemory};

    ghost from_gives = { λ _ e. e ≡ OutOfMemory };

    fn from(_error: AllocError) -> EvalError {
        EvalError::NoMemory
    }
}

impl<T: Drop> From<AllocFailed<T>> for EvalError {
    ghost use Rattle.vx_eval.specs.declared.errors.EvalError.TheVariants.{NoMemory as OutOfMemory};

    ghost from_gives = { λ _ e. e ≡ OutOfMemory };

    fn from(_error: AllocFailed<T>) -> EvalError {
        EvalError::NoMemory
    }
}

impl From<NoMemory> for EvalError {
    ghost use Rattle.vx_eval.specs.declared.errors.EvalError.TheVariants.{NoMemory as OutOfMemory};

    ghost from_gives = { λ _ e. e ≡ OutOfMemory };

    fn from(_error: NoMemory) -> EvalError {
        EvalError::NoMemory
    }
}

/// Why one node gives no column over those of its operands.
#[derive(Debug, Drop)]
pub(crate) enum Failure {
    /// There was no memory for the answer.
    NoMemory,
    /// The operands' types are none that the node asks for.
    Mistyped,
    /// A sum or difference has no value at some row.
    Overflow,
    /// A cast has no value at some row.
    BadCast,
}

impl From<AllocError> for Failure {
    ghost use Rattle.vx_eval.specs.declared.errors.Failure.TheVariants.{NoMemory as OutOfMemory};

    ghost from_gives = { λ _ e. e ≡ OutOfMemory };

    fn from(_error: AllocError) -> Failure {
        Failure::NoMemory
    }
}

impl<T: Drop> From<AllocFailed<T>> for Failure {
    ghost use Rattle.vx_eval.specs.declared.errors.Failure.TheVariants.{NoMemory as OutOfMemory};

    ghost from_gives = { λ _ e. e ≡ OutOfMemory };

    fn from(_error: AllocFailed<T>) -> Failure {
        Failure::NoMemory
    }
}

impl From<NoMemory> for Failure {
    ghost use Rattle.vx_eval.specs.declared.errors.Failure.TheVariants.{NoMemory as OutOfMemory};

    ghost from_gives = { λ _ e. e ≡ OutOfMemory };

    fn from(_error: NoMemory) -> Failure {
        Failure::NoMemory
    }
}

impl From<ColumnError> for Failure {
    ghost use Rattle.vx_eval.specs.Failures.{failure_of};

    ghost from_gives = { λ refusal e. e ≡ failure_of refusal };

    fn from(error: ColumnError) -> Failure {
        match error {
            ColumnError::NoMemory => Failure::NoMemory,
            ColumnError::WrongLength | ColumnError::WrongValue => Failure::Mistyped,
            ColumnError::DuplicateField | ColumnError::UnknownField => Failure::Mistyped,
            ColumnError::Overflow => Failure::Overflow,
            ColumnError::BadCast => Failure::BadCast,
        }
    }
}
