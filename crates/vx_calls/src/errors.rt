// Why a call is refused.
ghost use Rattle.std.specs.Prelude.{◌≡◌};
ghost use Rattle.vx_calls.specs.Refusals.{array_line, call_line, call_status, schema_line};

use std::alloc::{AllocError, AllocFailed};
use vx_arrays::ArrayError;
use vx_dtype::NoMemory;
use vx_request::{Place, RequestError, Side, TableRefusal};

/// The status where the schema is refused.
pub const SCHEMA: u8 = 3;
/// The status where the predicate, or the filter, is refused.
pub const FILTER: u8 = 4;
/// The status where a sum or a difference has no value at a row.
pub const OVERFLOW: u8 = 5;
/// The status where there was no memory.
pub const NO_MEMORY: u8 = 8;
/// The status where the arrays, or the numbers of rows of blocks, are refused.
pub const ARRAYS: u8 = 10;
/// The status where a cast has no value at a row.
pub const BAD_CAST: u8 = 11;

/// Why a call is refused: the first reason, in this order, of those that the call has.
#[derive(Debug, Drop)]
pub enum CallError {
    /// There was no memory.
    NoMemory,
    /// Exactly where the schema is no table: the first reason, never want of memory.
    Schema(RequestError),
    /// Exactly where the predicate isn't UTF-8.
    NotUtf8,
    /// Exactly where the statement whose WHERE the predicate is isn't taken over the schema's columns: the line that tells why, without an end of line. Its
    /// places are those of the statement, in which the predicate begins at byte 22.
    Statement(String),
    /// Exactly where the statement is taken and has ORDER BY.
    Ordered,
    /// Exactly where the statement is taken and has LIMIT, but not ORDER BY.
    Limited,
    /// Exactly where a type in the filter that the predicate names is deeper than the wire form allows.
    NotSerializable,
    /// Exactly where else a part of the filter that the predicate names is longer than the wire form allows.
    TooLong,
    /// Exactly where the filter's bytes are no wire text and meet neither limit.
    BadWire,
    /// Exactly where the filter's wire text opens more than 256 nodes, before it begins more than 4,096.
    TooDeep,
    /// Exactly where the filter's wire text begins more than 4,096 nodes.
    TooManyNodes,
    /// Exactly where the first node that refuses is of no kind that is built by default.
    UnknownExpr,
    /// Exactly where the metadata of the first node that refuses is no spelling of its kind's.
    BadMetadata,
    /// Exactly where the first node that refuses has more or fewer children than its kind takes.
    WrongChildren,
    /// Exactly where the filter's strict typing over the schema's columns refuses so.
    NotStruct,
    /// Exactly where the filter's strict typing over the schema's columns refuses so.
    NullableSelect,
    /// Exactly where the filter's strict typing over the schema's columns refuses so.
    UnknownField,
    /// Exactly where the filter's strict typing over the schema's columns refuses so.
    DuplicateField,
    /// Exactly where the filter's strict typing over the schema's columns refuses so.
    TypeMismatch,
    /// Exactly where the filter's strict type is no boolean.
    FilterNotBool,
    /// Exactly where there are 2^32 blocks or more.
    ManyBlocks,
    /// Exactly where the arrays aren't of the columns that are asked: the first reason, never want of memory.
    Arrays(ArrayError),
    /// A sum or a difference of the filter has no value at a row.
    Overflow,
    /// A cast of the filter has no value at a row.
    BadCast,
}

impl CallError {
    /// The status of the refusal.
    pub fn status(&self) -> u8
        ensures { result ≡ call_status self.now }
    {
        match self {
            CallError::NoMemory => NO_MEMORY,
            CallError::Schema(_) => SCHEMA,
            CallError::ManyBlocks => ARRAYS,
            CallError::Arrays(_) => ARRAYS,
            CallError::Overflow => OVERFLOW,
            CallError::BadCast => BAD_CAST,
            CallError::NotUtf8
            | CallError::Statement(_)
            | CallError::Ordered
            | CallError::Limited
            | CallError::NotSerializable
            | CallError::TooLong
            | CallError::BadWire
            | CallError::TooDeep
            | CallError::TooManyNodes
            | CallError::UnknownExpr
            | CallError::BadMetadata
            | CallError::WrongChildren
            | CallError::NotStruct
            | CallError::NullableSelect
            | CallError::UnknownField
            | CallError::DuplicateField
            | CallError::TypeMismatch
            | CallError::FilterNotBool => FILTER,
        }
    }

    /// The refusal in a line, without an end of line: its name, and of a statement the line that tells why it isn't taken. It takes no memory.
    pub fn line(&self) -> &str
        ensures { result.now ≡ call_line self.now }
    {
        match self {
            CallError::NoMemory => "NoMemory",
            CallError::Schema(refusal) => schema_line(refusal),
            CallError::NotUtf8 => "NotUtf8",
            CallError::Statement(line) => line.as_str(),
            CallError::Ordered => "Ordered",
            CallError::Limited => "Limited",
            CallError::NotSerializable => "NotSerializable",
            CallError::TooLong => "TooLong",
            CallError::BadWire => "BadWire",
            CallError::TooDeep => "TooDeep",
            CallError::TooManyNodes => "TooManyNodes",
            CallError::UnknownExpr => "UnknownExpr",
            CallError::BadMetadata => "BadMetadata",
            CallError::WrongChildren => "WrongChildren",
            CallError::NotStruct => "NotStruct",
            CallError::NullableSelect => "NullableSelect",
            CallError::UnknownField => "UnknownField",
            CallError::DuplicateField => "DuplicateField",
            CallError::TypeMismatch => "TypeMismatch",
            CallError::FilterNotBool => "FilterNotBool",
            CallError::ManyBlocks => "ManyBlocks",
            CallError::Arrays(refusal) => array_line(refusal),
            CallError::Overflow => "Overflow",
            CallError::BadCast => "BadCast",
        }
    }
}

/// The line of a schema that is refused.
fn schema_line(refusal: &RequestError) -> &'static str
    ensures { result.now ≡ schema_line refusal.now }
{
    match refusal {
        RequestError::NoMemory => "NoMemory",
        RequestError::InputTooLong => "InputTooLong",
        RequestError::BadJson => "BadJson",
        RequestError::BadRequest(place) => place_line(*place),
        RequestError::BadHex(Side::Filter) => "BadHex filter",
        RequestError::BadHex(Side::Projection) => "BadHex projection",
        RequestError::BadTable(refusal) => table_line(*refusal),
    }
}

/// The line of a place of a schema that doesn't hold what it has to.
fn place_line(place: Place) -> &'static str
    ensures { result.now ≡ schema_line (RequestError.BadRequest place) }
{
    match place {
        Place::Top => "BadRequest top",
        Place::Columns => "BadRequest columns",
        Place::Blocks => "BadRequest blocks",
        Place::Stats => "BadRequest stats",
        Place::Filter => "BadRequest filter",
        Place::Projection => "BadRequest projection",
    }
}

/// The line of the table of a schema that is refused.
fn table_line(refusal: TableRefusal) -> &'static str
    ensures { result.now ≡ schema_line (RequestError.BadTable refusal) }
{
    match refusal {
        TableRefusal::DuplicateName => "BadTable DuplicateName",
        TableRefusal::DeepType => "BadTable DeepType",
        TableRefusal::BadStatPath => "BadTable BadStatPath",
        TableRefusal::DuplicateStat => "BadTable DuplicateStat",
        TableRefusal::WrongStatCount => "BadTable WrongStatCount",
        TableRefusal::WrongStatType => "BadTable WrongStatType",
        TableRefusal::WrongLength => "BadTable WrongLength",
        TableRefusal::WrongValue => "BadTable WrongValue",
    }
}

/// The line of arrays that are refused.
fn array_line(refusal: &ArrayError) -> &'static str
    ensures { result.now ≡ array_line refusal.now }
{
    match refusal {
        ArrayError::NoMemory => "NoMemory",
        ArrayError::NoArray => "NoArray",
        ArrayError::WrongBuffers => "WrongBuffers",
        ArrayError::BadText => "BadText",
        ArrayError::NullCell => "NullCell",
    }
}

impl From<AllocError> for CallError {
    ghost use Rattle.vx_calls.specs.declared.errors.CallError.TheVariants.{NoMemory as OutOfMemory};

    ghost from_gives = { λ _ e. e ≡ OutOfMemory };

    fn from(_error: AllocError) -> CallError {
        CallError::NoMemory
    }
}

impl<T: Drop> From<AllocFailed<T>> for CallError {
    ghost use Rattle.vx_calls.specs.declared.errors.CallError.TheVariants.{NoMemory as OutOfMemory};

    ghost from_gives = { λ _ e. e ≡ OutOfMemory };

    fn from(_error: AllocFailed<T>) -> CallError {
        CallError::NoMemory
    }
}

impl From<NoMemory> for CallError {
    ghost use Rattle.vx_calls.specs.declared.errors.CallError.TheVariants.{NoMemory as OutOfMemory};

    ghost from_gives = { λ _ e. e ≡ OutOfMemory };

    fn from(_error: NoMemory) -> CallError {
        CallError::NoMemory
    }
}

impl From<RequestError> for CallError {
    ghost use Rattle.vx_calls.specs.Refusals.{schema_error};

    ghost from_gives = { λ refusal e. e ≡ schema_error refusal };

    fn from(refusal: RequestError) -> CallError {
        match refusal {
            RequestError::NoMemory => CallError::NoMemory,
            other => CallError::Schema(other),
        }
    }
}

impl From<ArrayError> for CallError {
    ghost use Rattle.vx_calls.specs.Refusals.{array_error};

    ghost from_gives = { λ refusal e. e ≡ array_error refusal };

    fn from(refusal: ArrayError) -> CallError {
        match refusal {
            ArrayError::NoMemory => CallError::NoMemory,
            other => CallError::Arrays(other),
        }
    }
}
