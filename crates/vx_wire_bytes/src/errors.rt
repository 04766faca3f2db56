// Why bytes aren't read, or a tree isn't written.
ghost use Rattle.std.specs.Prelude.{◌≡◌};

use std::alloc::{AllocError, AllocFailed};
use thiserror::Error;
use vx_dtype::NoMemory;

/// Why bytes aren't read as a tree, or a tree isn't written.
#[derive(PartialEq, Eq, Debug, Drop, Error)]
pub enum WireError {
    /// There was no memory for the answer.
    #[error("NoMemory")]
    NoMemory,
    /// The bytes are no node, and meet no limit.
    #[error("BadWire")]
    BadWire,
    /// 256 nodes are open where one more begins.
    #[error("TooDeep")]
    TooDeep,
    /// 4,096 nodes are begun where one more begins.
    #[error("TooManyNodes")]
    TooManyNodes,
    /// A text, metadata or a list has 2^32 or more.
    #[error("TooLong")]
    TooLong,
    /// The expression has no wire form.
    #[error("NotSerializable")]
    NotSerializable,
}

impl From<AllocError> for WireError {
    ghost use Rattle.vx_wire_bytes.specs.declared.errors.WireError.TheVariants.{NoMemory as OutOfMemory};

    ghost from_gives = { λ _ e. e ≡ OutOfMemory };

    fn from(_error: AllocError) -> WireError {
        WireError::NoMemory
    }
}

impl<T: Drop> From<AllocFailed<T>> for WireError {
    ghost use Rattle.vx_wire_bytes.specs.declared.errors.WireError.TheVariants.{NoMemory as OutOfMemory};

    ghost from_gives = { λ _ e. e ≡ OutOfMemory };

    fn from(_error: AllocFailed<T>) -> WireError {
        WireError::NoMemory
    }
}

impl From<NoMemory> for WireError {
    ghost use Rattle.vx_wire_bytes.specs.declared.errors.WireError.TheVariants.{NoMemory as OutOfMemory};

    ghost from_gives = { λ _ e. e ≡ OutOfMemory };

    fn from(_error: NoMemory) -> WireError {
        WireError::NoMemory
    }
}
