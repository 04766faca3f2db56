// Why operands have no place in a form.
ghost use Rattle.std.specs.Prelude.{◌≡◌};

use crate::operands::Operand;
use std::alloc::{AllocError, AllocFailed};
use thiserror::Error;
use vx_dtype::{DType, NoMemory, PType};

/// Why operands have no place in a form.
#[derive(Debug, Drop)]
pub enum Mismatch {
    /// A number that is none of the integer type.
    OutOfRange(i128, PType),
    /// Two operands of two kinds, in their order.
    OtherKinds(Operand, Operand),
    /// A list or a struct, which is neither compared nor added.
    NotPlain(Operand),
    /// Numbers of types that no type holds together.
    NoCommonType(PType, PType),
    /// An operand where a boolean is asked.
    NoBoolean(Operand),
    /// An operand where a text is asked.
    NoText(Operand),
    /// An operand where a number is asked.
    NoNumber(Operand),
    /// A cast from one kind to another.
    NoCast(Operand, DType),
    /// Membership in no constants.
    NoConstants,
}

/// Why a form has no expression.
#[derive(Debug, Drop, Error)]
pub enum FormError {
    /// There was no memory for the answer.
    #[error("NoMemory")]
    NoMemory,
    /// The operands have no place in the form.
    #[error("Mismatch")]
    Mismatch(Mismatch),
}

impl From<AllocError> for FormError {
    ghost use Rattle.vx_sql_forms.specs.declared.errors.FormError.TheVariants.{NoMemory as OutOfMemory};

    ghost from_gives = { λ _ e. e ≡ OutOfMemory };

    fn from(_error: AllocError) -> FormError {
        FormError::NoMemory
    }
}

impl<T: Drop> From<AllocFailed<T>> for FormError {
    ghost use Rattle.vx_sql_forms.specs.declared.errors.FormError.TheVariants.{NoMemory as OutOfMemory};

    ghost from_gives = { λ _ e. e ≡ OutOfMemory };

    fn from(_error: AllocFailed<T>) -> FormError {
        FormError::NoMemory
    }
}

impl From<NoMemory> for FormError {
    ghost use Rattle.vx_sql_forms.specs.declared.errors.FormError.TheVariants.{NoMemory as OutOfMemory};

    ghost from_gives = { λ _ e. e ≡ OutOfMemory };

    fn from(_error: NoMemory) -> FormError {
        FormError::NoMemory
    }
}
