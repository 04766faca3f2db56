// Why there are no first rows.
ghost use Rattle.std.specs.Prelude.{◌≡◌};
ghost use Rattle.vx_topk.specs.Ready.{top_error};

use std::alloc::AllocError;
use vx_dtype::NoMemory;
use vx_scan::ScanError;

/// Why there are no first rows by a key. The refusals before the first block come in this order; nothing is read then.
#[derive(PartialEq, Eq, Debug, Drop)]
pub enum TopError {
    /// There was no memory.
    NoMemory,
    /// Exactly where the table has no column of the key's name.
    UnknownKey,
    /// Exactly where that column's type isn't plain: a list or a struct.
    BadKey,
    /// As a scan is refused by the typing of its expressions, or broken, or stopped by a read that failed. It never holds NoMemory, nor a
    /// refusal of a text.
    Scan(ScanError),
}

impl From<NoMemory> for TopError {
    ghost use Rattle.vx_topk.specs.declared.errors.TopError.TheVariants.{NoMemory as OutOfMemory};

    ghost from_gives = { λ _ e. e ≡ OutOfMemory };

    fn from(_error: NoMemory) -> TopError {
        TopError::NoMemory
    }
}

impl From<AllocError> for TopError {
    ghost use Rattle.vx_topk.specs.declared.errors.TopError.TheVariants.{NoMemory as OutOfMemory};

    ghost from_gives = { λ _ e. e ≡ OutOfMemory };

    fn from(_error: AllocError) -> TopError {
        TopError::NoMemory
    }
}

impl From<ScanError> for TopError {
    ghost from_gives = { λ error e. e ≡ top_error error };

    fn from(error: ScanError) -> TopError {
        match error {
            ScanError::NoMemory => TopError::NoMemory,
            other => TopError::Scan(other),
        }
    }
}
