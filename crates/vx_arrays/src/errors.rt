// Why buffers are no columns.
ghost use Rattle.std.specs.Prelude.{◌≡◌};

use std::alloc::{AllocError, AllocFailed};
use vx_dtype::NoMemory;

/// Why buffers are no columns: of the first column that is refused, the first reason in this order.
#[derive(PartialEq, Eq, Debug, Drop)]
pub enum ArrayError {
    /// There was no memory for the columns.
    NoMemory,
    /// The column's type is that of lists or structs.
    NoArray,
    /// A buffer of the column isn't there, isn't in the body or is shorter than the rows need, or an offset is above the next one or above the number of
    /// bytes. Also where numbers are left behind the last column's.
    WrongBuffers,
    /// A text that isn't null isn't UTF-8.
    BadText,
    /// A cell is null, and the column's type isn't nullable.
    NullCell,
}

impl From<AllocError> for ArrayError {
    ghost use Rattle.vx_arrays.specs.declared.errors.ArrayError.TheVariants.{NoMemory as OutOfMemory};

    ghost from_gives = { λ _ e. e ≡ OutOfMemory };

    fn from(_error: AllocError) -> ArrayError {
        ArrayError::NoMemory
    }
}

impl<T: Drop> From<AllocFailed<T>> for ArrayError {
    ghost use Rattle.vx_arrays.specs.declared.errors.ArrayError.TheVariants.{NoMemory as OutOfMemory};

    ghost from_gives = { λ _ e. e ≡ OutOfMemory };

    fn from(_error: AllocFailed<T>) -> ArrayError {
        ArrayError::NoMemory
    }
}

impl From<NoMemory> for ArrayError {
    ghost use Rattle.vx_arrays.specs.declared.errors.ArrayError.TheVariants.{NoMemory as OutOfMemory};

    ghost from_gives = { λ _ e. e ≡ OutOfMemory };

    fn from(_error: NoMemory) -> ArrayError {
        ArrayError::NoMemory
    }
}
