//! Why a walk ended early.
ghost use Rattle.std.specs.Prelude.{◌≡◌};

use std::alloc::{AllocError, AllocFailed};
use vx_dtype::NoMemory;

/// Why a walk that takes memory answered no value.
#[derive(Debug, Drop, PartialEq, Eq)]
pub enum WalkError<E> {
    /// Memory ran out; of the state of the visitor, rewriter, folder or closure nothing is said.
    NoMemory,
    /// Exactly where a visitor, rewriter, folder or closure answered this error. Nothing was
    /// visited after it.
    Visit(E),
}

/// What a walk that takes memory answers.
pub type Walk<T, E> = Result<T, WalkError<E>>;

impl<E> From<NoMemory> for WalkError<E> {
    ghost use Rattle.vx_traversal.specs.declared.errors.WalkError.TheVariants.{NoMemory};
    ghost use Rattle.std.specs.Prelude.{◌≡◌};

    ghost from_gives = { λ _ e. e ≡ NoMemory };

    fn from(_refused: NoMemory) -> WalkError<E> {
        WalkError::NoMemory
    }
}

impl<E> From<AllocError> for WalkError<E> {
    ghost use Rattle.vx_traversal.specs.declared.errors.WalkError.TheVariants.{NoMemory};
    ghost use Rattle.std.specs.Prelude.{◌≡◌};

    ghost from_gives = { λ _ e. e ≡ NoMemory };

    fn from(_refused: AllocError) -> WalkError<E> {
        WalkError::NoMemory
    }
}

impl<T: Drop, E> From<AllocFailed<T>> for WalkError<E> {
    ghost use Rattle.vx_traversal.specs.declared.errors.WalkError.TheVariants.{NoMemory};
    ghost use Rattle.std.specs.Prelude.{◌≡◌};

    ghost from_gives = { λ _ e. e ≡ NoMemory };

    fn from(_refused: AllocFailed<T>) -> WalkError<E> {
        WalkError::NoMemory
    }
}
