// Why a column isn't read, and why a scan gives no report.
ghost use Rattle.std.specs.Prelude.{◌≡◌};

use std::alloc::{AllocError, AllocFailed};
use vx_dtype::NoMemory;

/// Why a column isn't read.
#[derive(PartialEq, Eq, Debug, Drop)]
pub enum StoreError {
    /// There was no memory for the answer.
    NoMemory,
    /// The read failed: only where the store counted a fault in this call.
    Failed,
}

/// One of the expressions of a request.
#[derive(Clone, Copy, PartialEq, Eq, Debug)]
pub enum Side {
    /// The filter.
    Filter,
    /// The projection.
    Projection,
    /// An expression that stands alone.
    Text,
}

/// Why a scan gives no report. The refusals before the first block come in this order, of the filter's text before the projection's and of the
/// filter's type before the projection's; nothing is read then.
#[derive(PartialEq, Eq, Debug, Drop)]
pub enum ScanError {
    /// There was no memory.
    NoMemory,
    /// Exactly where the text is no wire text and meets neither limit.
    BadWire(Side),
    /// Exactly where the wire text opens more than 256 nodes, before it begins more than 4,096.
    TooDeep(Side),
    /// Exactly where the wire text begins more than 4,096 nodes.
    TooManyNodes(Side),
    /// Exactly where the registry holds no kind of the name of the first node that refuses.
    UnknownExpr(Side),
    /// Exactly where the metadata of the first node that refuses is no spelling of its kind's.
    BadMetadata(Side),
    /// Exactly where the first node that refuses has more or fewer children than its kind takes.
    WrongChildren(Side),
    /// Exactly where the expression's typing refuses so.
    NotStruct(Side),
    /// Exactly where the expression's typing refuses so.
    NullableSelect(Side),
    /// Exactly where the expression's typing refuses so.
    UnknownField(Side),
    /// Exactly where the expression's typing refuses so.
    DuplicateField(Side),
    /// Exactly where the expression's typing refuses so, or it is typed and a slot doesn't fit.
    TypeMismatch(Side),
    /// Exactly where the filter's type is no boolean.
    FilterNotBool,
    /// A sum or difference that an expression asks has no value at a row of a phase.
    Overflow,
    /// A cast that an expression asks has no value at a row of a phase.
    BadCast,
    /// A read failed: only where the store counted a fault in this call.
    StoreFault,
}

impl From<AllocError> for StoreError {
    ghost use Rattle.vx_scan.specs.declared.errors.StoreError.TheVariants.{NoMemory as OutOfMemory};

    ghost from_gives = { λ _ e. e ≡ OutOfMemory };

    fn from(_error: AllocError) -> StoreError {
        StoreError::NoMemory
    }
}

impl<T: Drop> From<AllocFailed<T>> for StoreError {
    ghost use Rattle.vx_scan.specs.declared.errors.StoreError.TheVariants.{NoMemory as OutOfMemory};

    ghost from_gives = { λ _ e. e ≡ OutOfMemory };

    fn from(_error: AllocFailed<T>) -> StoreError {
        StoreError::NoMemory
    }
}

impl From<NoMemory> for StoreError {
    ghost use Rattle.vx_scan.specs.declared.errors.StoreError.TheVariants.{NoMemory as OutOfMemory};

    ghost from_gives = { λ _ e. e ≡ OutOfMemory };

    fn from(_error: NoMemory) -> StoreError {
        StoreError::NoMemory
    }
}

impl From<AllocError> for ScanError {
    ghost use Rattle.vx_scan.specs.declared.errors.ScanError.TheVariants.{NoMemory as OutOfMemory};

    ghost from_gives = { λ _ e. e ≡ OutOfMemory };

    fn from(_error: AllocError) -> ScanError {
        ScanError::NoMemory
    }
}

impl<T: Drop> From<AllocFailed<T>> for ScanError {
    ghost use Rattle.vx_scan.specs.declared.errors.ScanError.TheVariants.{NoMemory as OutOfMemory};

    ghost from_gives = { λ _ e. e ≡ OutOfMemory };

    fn from(_error: AllocFailed<T>) -> ScanError {
        ScanError::NoMemory
    }
}

impl From<NoMemory> for ScanError {
    ghost use Rattle.vx_scan.specs.declared.errors.ScanError.TheVariants.{NoMemory as OutOfMemory};

    ghost from_gives = { λ _ e. e ≡ OutOfMemory };

    fn from(_error: NoMemory) -> ScanError {
        ScanError::NoMemory
    }
}
