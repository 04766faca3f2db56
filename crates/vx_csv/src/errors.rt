// Why a text is no table.
ghost use Rattle.std.specs.Prelude.{◌≡◌};

use std::alloc::{AllocError, AllocFailed};
use vx_dtype::{DType, NoMemory};

/// Why a text is no table: the first reason, in this order. Rows are counted from 1 behind the first line, which is row 0, and columns from 1.
#[derive(Debug, Drop)]
pub enum CsvRefusal {
    /// A quote is open at the end of the text.
    QuoteLeftOpen,
    /// There is no line of names.
    NoHeader,
    /// A cell isn't UTF-8: the first in the first line, or in the first row that isn't of the form.
    NotText {
        /// Its row.
        row: usize,
        /// Its column.
        column: usize,
    },
    /// A name stands twice.
    NameTwice,
    /// A row hasn't as many cells as there are names.
    OtherLength {
        /// The row.
        row: usize,
        /// How many cells it has.
        cells: usize,
        /// How many names there are.
        names: usize,
    },
    /// There are more rows than are asked for.
    TooManyRows {
        /// How many there are.
        rows: usize,
    },
    /// The names aren't those of the given columns, in their order.
    OtherNames,
    /// A given column is of no plain type.
    NotPlain {
        /// Its number.
        column: usize,
        /// Its type.
        dtype: DType,
    },
    /// A cell is no value of its column's type.
    BadCell {
        /// Its row.
        row: usize,
        /// Its column.
        column: usize,
        /// The bytes of the cell, which are UTF-8.
        cell: Vec<u8>,
        /// The column's type.
        dtype: DType,
    },
}

/// Why there is no table of a text.
#[derive(Debug, Drop)]
pub enum CsvError {
    /// There was no memory.
    NoMemory,
    /// The text is refused.
    Refused(CsvRefusal),
}

impl From<AllocError> for CsvError {
    ghost use Rattle.vx_csv.specs.declared.errors.CsvError.TheVariants.{NoMemory as OutOfMemory};

    ghost from_gives = { λ _ e. e ≡ OutOfMemory };

    fn from(_error: AllocError) -> CsvError {
        CsvError::NoMemory
    }
}

impl<T: Drop> From<AllocFailed<T>> for CsvError {
    ghost use Rattle.vx_csv.specs.declared.errors.CsvError.TheVariants.{NoMemory as OutOfMemory};

    ghost from_gives = { λ _ e. e ≡ OutOfMemory };

    fn from(_error: AllocFailed<T>) -> CsvError {
        CsvError::NoMemory
    }
}

impl From<NoMemory> for CsvError {
    ghost use Rattle.vx_csv.specs.declared.errors.CsvError.TheVariants.{NoMemory as OutOfMemory};

    ghost from_gives = { λ _ e. e ≡ OutOfMemory };

    fn from(_error: NoMemory) -> CsvError {
        CsvError::NoMemory
    }
}
