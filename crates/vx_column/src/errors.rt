// Why a column isn't made.
ghost use Rattle.std.specs.Prelude.{◌≡◌};

use std::alloc::{AllocError, AllocFailed};
use vx_dtype::{FieldsError, NoMemory};

/// Why a column isn't made.
#[derive(PartialEq, Eq, Debug, Drop)]
pub enum ColumnError {
    /// There was no memory for the answer.
    NoMemory,
    /// Exactly where parts differ in number or in length.
    WrongLength,
    /// Exactly where a value isn't one of the type.
    WrongValue,
    /// Exactly where a name stands twice in one struct.
    DuplicateField,
    /// Exactly where a name isn't among the fields'.
    UnknownField,
    /// Exactly where a row's sum or difference leaves the type.
    Overflow,
    /// Exactly where a row's value has no counterpart in the target type.
    BadCast,
}

impl From<AllocError> for ColumnError {
    ghost use Rattle.vx_column.specs.declared.errors.ColumnError.TheVariants.{NoMemory as OutOfMemory};

    ghost from_gives = { λ _ e. e ≡ OutOfMemory };

    fn from(_error: AllocError) -> ColumnError {
        ColumnError::NoMemory
    }
}

impl<T: Drop> From<AllocFailed<T>> for ColumnError {
    ghost use Rattle.vx_column.specs.declared.errors.ColumnError.TheVariants.{NoMemory as OutOfMemory};

    ghost from_gives = { λ _ e. e ≡ OutOfMemory };

    fn from(_error: AllocFailed<T>) -> ColumnError {
        ColumnError::NoMemory
    }
}

impl From<NoMemory> for ColumnError {
    ghost use Rattle.vx_column.specs.declared.errors.ColumnError.TheVariants.{NoMemory as OutOfMemory};

    ghost from_gives = { λ _ e. e ≡ OutOfMemory };

    fn from(_error: NoMemory) -> ColumnError {
        ColumnError::NoMemory
    }
}

impl From<FieldsError> for ColumnError {
    ghost use Rattle.vx_column.specs.StructColumns.{fields_refusal};

    ghost from_gives = { λ refusal e. e ≡ fields_refusal refusal };

    fn from(error: FieldsError) -> ColumnError {
        match error {
            FieldsError::NoMemory => ColumnError::NoMemory,
            FieldsError::UnknownField => ColumnError::UnknownField,
        }
    }
}
