// Why bytes are no request, and why they are none of a block file.
ghost use Rattle.std.specs.Prelude.{◌≡◌};

use std::alloc::{AllocError, AllocFailed};
use vx_dtype::NoMemory;
use vx_zones::ZoneError;

/// A place of a request, in the order in which they are read.
#[derive(Clone, Copy, PartialEq, Eq, Debug)]
pub enum Place {
    /// The request itself: an object of exactly the other places.
    Top,
    Columns,
    Blocks,
    Stats,
    Filter,
    Projection,
}

/// One of the two expressions of a request.
#[derive(Clone, Copy, PartialEq, Eq, Debug)]
pub enum Side {
    Filter,
    Projection,
}

/// Why the table of a request is refused: the first reason, in this order.
#[derive(Clone, Copy, PartialEq, Eq, Debug)]
pub enum TableRefusal {
    /// Two fields of a struct have one name, at any depth, the table's own columns included.
    DuplicateName,
    /// A column's type is deeper than 64.
    DeepType,
    /// A path leads through struct fields to no plain field.
    BadStatPath,
    /// One path has one statistic twice.
    DuplicateStat,
    /// A statistic hasn't one cell per block.
    WrongStatCount,
    /// A cell of a statistic is no value of the statistic's type, made nullable.
    WrongStatType,
    /// A block hasn't one list of cells per column, or a list hasn't one cell per row.
    WrongLength,
    /// A cell is no value of its column's type.
    WrongValue,
}

/// Why bytes are no request: the first reason, in this order.
#[derive(PartialEq, Eq, Debug, Drop)]
pub enum RequestError {
    /// There was no memory.
    NoMemory,
    /// There are more than 16,777,216 bytes.
    InputTooLong,
    /// The bytes aren't a text of JSON that nests at most 127 levels.
    BadJson,
    /// A place doesn't hold what it has to.
    BadRequest(Place),
    /// A text isn't of two hexadecimal digits for each byte.
    BadHex(Side),
    /// The table is refused.
    BadTable(TableRefusal),
}

impl From<AllocError> for RequestError {
    ghost use Rattle.vx_request.specs.declared.errors.RequestError.TheVariants.{NoMemory as OutOfMemory};

    ghost from_gives = { λ _ e. e ≡ OutOfMemory };

    fn from(_error: AllocError) -> RequestError {
        RequestError::NoMemory
    }
}

impl<T: Drop> From<AllocFailed<T>> for RequestError {
    ghost use Rattle.vx_request.specs.declared.errors.RequestError.TheVariants.{NoMemory as OutOfMemory};

    ghost from_gives = { λ _ e. e ≡ OutOfMemory };

    fn from(_error: AllocFailed<T>) -> RequestError {
        RequestError::NoMemory
    }
}

impl From<NoMemory> for RequestError {
    ghost use Rattle.vx_request.specs.declared.errors.RequestError.TheVariants.{NoMemory as OutOfMemory};

    ghost from_gives = { λ _ e. e ≡ OutOfMemory };

    fn from(_error: NoMemory) -> RequestError {
        RequestError::NoMemory
    }
}

impl From<ZoneError> for RequestError {
    ghost use Rattle.vx_request.specs.Requests.{zone_refusal};

    ghost from_gives = { λ refusal e. e ≡ zone_refusal refusal };

    fn from(error: ZoneError) -> RequestError {
        match error {
            ZoneError::NoMemory => RequestError::NoMemory,
            ZoneError::DuplicateName => RequestError::BadTable(TableRefusal::DuplicateName),
            ZoneError::DeepType => RequestError::BadTable(TableRefusal::DeepType),
            ZoneError::BadStatPath => RequestError::BadTable(TableRefusal::BadStatPath),
            ZoneError::DuplicateStat => RequestError::BadTable(TableRefusal::DuplicateStat),
            ZoneError::WrongStatCount => RequestError::BadTable(TableRefusal::WrongStatCount),
            ZoneError::WrongStatType => RequestError::BadTable(TableRefusal::WrongStatType),
        }
    }
}

/// A place of a request of a block file, in the order in which they are read.
#[derive(Clone, Copy, PartialEq, Eq, Debug)]
pub enum FilePlace {
    /// The request itself: an object of exactly the other places.
    Top,
    File,
    Filter,
    Projection,
}

/// One of the three texts of a request of a block file.
#[derive(Clone, Copy, PartialEq, Eq, Debug)]
pub enum FileText {
    File,
    Filter,
    Projection,
}

/// Why bytes are no request of a block file: the first reason, in this order.
#[derive(PartialEq, Eq, Debug, Drop)]
pub enum FileRequestError {
    /// There was no memory.
    NoMemory,
    /// There are more than 16,777,216 bytes.
    InputTooLong,
    /// The bytes aren't a text of JSON that nests at most 127 levels.
    BadJson,
    /// A place doesn't hold what it has to.
    BadRequest(FilePlace),
    /// A text isn't of two hexadecimal digits for each byte.
    BadHex(FileText),
}

impl From<NoMemory> for FileRequestError {
    ghost use Rattle.vx_request.specs.declared.errors.FileRequestError.TheVariants.{NoMemory as OutOfMemory};

    ghost from_gives = { λ _ e. e ≡ OutOfMemory };

    fn from(_error: NoMemory) -> FileRequestError {
        FileRequestError::NoMemory
    }
}
