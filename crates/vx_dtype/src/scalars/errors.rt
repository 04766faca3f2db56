// Why a scalar isn't made.
ghost use Rattle.std.specs.Prelude.{◌≡◌};

use std::alloc::{AllocError, AllocFailed};

/// The value isn't one of the type.
#[derive(PartialEq, Eq, Debug, Drop)]
pub struct WrongValue;

/// Why a scalar that takes memory isn't made.
#[derive(PartialEq, Eq, Debug, Drop)]
pub enum ScalarError {
    /// There was no memory for the answer.
    NoMemory,
    /// Exactly where the value isn't one of the type.
    WrongValue,
}

impl From<AllocError> for ScalarError {
    ghost use Rattle.vx_dtype.specs.declared.scalars.errors.ScalarError.TheVariants.{NoMemory as OutOfMemory};

    ghost from_gives = { λ _ e. e ≡ OutOfMemory };

    fn from(_error: AllocError) -> ScalarError {
        ScalarError::NoMemory
    }
}

impl<T: Drop> From<AllocFailed<T>> for ScalarError {
    ghost use Rattle.vx_dtype.specs.declared.scalars.errors.ScalarError.TheVariants.{NoMemory as OutOfMemory};

    ghost from_gives = { λ _ e. e ≡ OutOfMemory };

    fn from(_error: AllocFailed<T>) -> ScalarError {
        ScalarError::NoMemory
    }
}

impl From<WrongValue> for ScalarError {
    ghost use Rattle.vx_dtype.specs.declared.scalars.errors.ScalarError.TheVariants.{WrongValue as Misfit};

    ghost from_gives = { λ _ e. e ≡ Misfit };

    fn from(_error: WrongValue) -> ScalarError {
        ScalarError::WrongValue
    }
}
