// Why an expression has no type.
ghost use Rattle.std.specs.Prelude.{◌≡◌};

use std::alloc::{AllocError, AllocFailed};
use thiserror::Error;
use vx_dtype::NoMemory;

/// Why an expression has no type: the first refusal, in this order, of the first node in post-order that refuses.
#[derive(PartialEq, Eq, Debug, Drop, Error)]
pub enum TypeError {
    /// There was no memory for the answer.
    #[error("NoMemory")]
    NoMemory,
    /// A field or fields are asked of what is no struct, or what is no struct is merged.
    #[error("NotStruct")]
    NotStruct,
    /// Fields are selected from a struct that may be null.
    #[error("NullableSelect")]
    NullableSelect,
    /// A name isn't among the struct's fields, an excluded name included.
    #[error("UnknownField")]
    UnknownField,
    /// A name stands twice: in a struct of the scope's or a constant's type, among included names, or in a struct of named values.
    #[error("DuplicateField")]
    DuplicateField,
    /// A type is none that the node asks for.
    #[error("TypeMismatch")]
    TypeMismatch,
}

impl TypeError {
    /// The same refusal once more.
    pub(crate) fn again(&self) -> TypeError
        ensures { result ≡ self.now }
    {
        match self {
            TypeError::NoMemory => TypeError::NoMemory,
            TypeError::NotStruct => TypeError::NotStruct,
            TypeError::NullableSelect => TypeError::NullableSelect,
            TypeError::UnknownField => TypeError::UnknownField,
            TypeError::DuplicateField => TypeError::DuplicateField,
            TypeError::TypeMismatch => TypeError::TypeMismatch,
        }
    }
}

impl From<AllocError> for TypeError {
    ghost use Rattle.vx_typing.specs.declared.errors.TypeError.TheVariants.{NoMemory as OutOfMemory};

    ghost from_gives = { λ _ e. e ≡ OutOfMemory };

    fn from(_error: AllocError) -> TypeError {
        TypeError::NoMemory
    }
}

impl<T: Drop> From<AllocFailed<T>> for TypeError {
    ghost use Rattle.vx_typing.specs.declared.errors.TypeError.TheVariants.{NoMemory as OutOfMemory};

    ghost from_gives = { λ _ e. e ≡ OutOfMemory };

    fn from(_error: AllocFailed<T>) -> TypeError {
        TypeError::NoMemory
    }
}

impl From<NoMemory> for TypeError {
    ghost use Rattle.vx_typing.specs.declared.errors.TypeError.TheVariants.{NoMemory as OutOfMemory};

    ghost from_gives = { λ _ e. e ≡ OutOfMemory };

    fn from(_error: NoMemory) -> TypeError {
        TypeError::NoMemory
    }
}
