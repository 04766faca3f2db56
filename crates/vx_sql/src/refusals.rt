// Why an expression isn't taken.
ghost use Rattle.std.specs.Prelude.{◌≡◌};

use sqlite_ast::{Binary, Unary};
use sqlite_value::value::Bytes;
use std::alloc::{AllocError, AllocFailed};
use vx_dtype::NoMemory;
use vx_sql_forms::{FormError, Mismatch, Operand};

/// Why an expression isn't taken.
#[derive(Debug, Drop)]
pub enum Refusal {
    /// It has more levels than are read.
    TooDeep,
    /// A function is called, of this name.
    Call(Bytes),
    /// CASE.
    Case,
    /// A query stands in the expression.
    Query,
    /// A parameter, or what reads the clock.
    Parameter,
    /// A number with a point or an exponent, as it is written.
    Fraction(Bytes),
    /// A hexadecimal number, as it is written.
    Hexadecimal(Bytes),
    /// A blob, by its digits.
    Blob(Bytes),
    /// An operator before its operand that isn't taken there.
    Prefix(Unary),
    /// An operator between two operands that isn't taken.
    Operator(Binary),
    /// A number of 2^120 or more, by its digits.
    Integer(Bytes),
    /// Bytes that aren't UTF-8.
    Text(Bytes),
    /// A name that is no column.
    Column(Bytes),
    /// A column, and a name that is no field of it.
    Field(Bytes, Bytes),
    /// A name that is no type.
    Type(Bytes),
    /// A member of a list is this column, or, behind the column's name, a field of it.
    ListedColumn(Option<Bytes>, Bytes),
    /// A member of a list is no constant.
    Constant,
    /// Operands that have no place in their form.
    Misplaced(Mismatch),
    /// A condition that is no boolean.
    Condition(Operand),
}

/// Why there is no expression: it isn't taken, or there was no memory.
#[derive(Debug, Drop)]
pub enum ExpressionError {
    /// There was no memory.
    NoMemory,
    /// The expression isn't taken.
    Refused(Refusal),
}

impl From<AllocError> for ExpressionError {
    ghost use Rattle.vx_sql.specs.declared.refusals.ExpressionError.TheVariants.{NoMemory as OutOfMemory};

    ghost from_gives = { λ _ e. e ≡ OutOfMemory };

    fn from(_error: AllocError) -> ExpressionError {
        ExpressionError::NoMemory
    }
}

impl<T: Drop> From<AllocFailed<T>> for ExpressionError {
    ghost use Rattle.vx_sql.specs.declared.refusals.ExpressionError.TheVariants.{NoMemory as OutOfMemory};

    ghost from_gives = { λ _ e. e ≡ OutOfMemory };

    fn from(_error: AllocFailed<T>) -> ExpressionError {
        ExpressionError::NoMemory
    }
}

impl From<NoMemory> for ExpressionError {
    ghost use Rattle.vx_sql.specs.declared.refusals.ExpressionError.TheVariants.{NoMemory as OutOfMemory};

    ghost from_gives = { λ _ e. e ≡ OutOfMemory };

    fn from(_error: NoMemory) -> ExpressionError {
        ExpressionError::NoMemory
    }
}

impl From<FormError> for ExpressionError {
    ghost use Rattle.vx_sql.specs.Answers.{of_form};

    ghost from_gives = { λ error e. e ≡ of_form error };

    fn from(error: FormError) -> ExpressionError {
        match error {
            FormError::NoMemory => ExpressionError::NoMemory,
            FormError::Mismatch(mismatch) => {
                ExpressionError::Refused(Refusal::Misplaced(mismatch))
            }
        }
    }
}
