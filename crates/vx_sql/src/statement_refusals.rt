// Why a statement isn't taken.
ghost use Rattle.std.specs.Prelude.{◌≡◌};

use crate::refusals::Refusal;
use sqlite_syntax::error::ParseError;
use sqlite_value::value::Bytes;
use std::alloc::{AllocError, AllocFailed};
use vx_dtype::NoMemory;

/// Why a statement isn't taken.
#[derive(Debug, Drop)]
pub enum StatementRefusal {
    /// A byte 0 stands at this place, counted from 0.
    ZeroByte(usize),
    /// The grammar has no rule for the text.
    Unread(ParseError),
    /// The text has no statement.
    Nothing,
    /// The statement is another than SELECT.
    NoSelect,
    /// A second statement stands at this place, counted from 0.
    SecondStatement(usize),
    /// WITH.
    With,
    /// UNION, EXCEPT or INTERSECT.
    Compound,
    /// Several tables, or a condition on one.
    Join,
    /// A query stands in place of a table.
    InnerQuery,
    /// The table has this alias.
    Alias(Bytes),
    /// DISTINCT.
    Distinct,
    /// GROUP BY.
    Group,
    /// HAVING.
    Having,
    /// OFFSET.
    Offset,
    /// A parameter.
    Parameters,
    /// What reads the clock.
    Clock,
    /// No table is named.
    NoTable,
    /// A table's name isn't UTF-8.
    TableName(Bytes),
    /// An expression of WHERE.
    InWhere(Refusal),
    /// An expression of SELECT.
    InSelect(Refusal),
    /// The column of ORDER BY.
    InOrder(Refusal),
    /// The columns of a struct, of this name.
    InnerColumns(Bytes),
    /// An expression of SELECT without a name, as it is written.
    Unnamed(Bytes),
    /// This name stands twice in SELECT.
    NameTwice(Bytes),
    /// ORDER BY has several keys.
    SeveralKeys,
    /// NULLS FIRST.
    NullsFirst,
    /// A key of ORDER BY is no column.
    NoKey,
    /// The column of ORDER BY, of this name, is a list or a struct.
    BadKey(Bytes),
    /// LIMIT is no number from 0 to 2^64 - 1.
    BadLimit,
}

/// Why there is no plan: the statement isn't taken, or there was no memory.
#[derive(Debug, Drop)]
pub enum SqlError {
    /// There was no memory.
    NoMemory,
    /// The statement isn't taken.
    Refused(StatementRefusal),
}

impl From<AllocError> for SqlError {
    ghost use Rattle.vx_sql.specs.declared.statement_refusals.SqlError.TheVariants.{NoMemory as OutOfMemory};

    ghost from_gives = { λ _ e. e ≡ OutOfMemory };

    fn from(_error: AllocError) -> SqlError {
        SqlError::NoMemory
    }
}

impl<T: Drop> From<AllocFailed<T>> for SqlError {
    ghost use Rattle.vx_sql.specs.declared.statement_refusals.SqlError.TheVariants.{NoMemory as OutOfMemory};

    ghost from_gives = { λ _ e. e ≡ OutOfMemory };

    fn from(_error: AllocFailed<T>) -> SqlError {
        SqlError::NoMemory
    }
}

impl From<NoMemory> for SqlError {
    ghost use Rattle.vx_sql.specs.declared.statement_refusals.SqlError.TheVariants.{NoMemory as OutOfMemory};

    ghost from_gives = { λ _ e. e ≡ OutOfMemory };

    fn from(_error: NoMemory) -> SqlError {
        SqlError::NoMemory
    }
}
