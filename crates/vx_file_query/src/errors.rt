// Why the scan of a block file that a request holds has no report.
ghost use Rattle.std.specs.Prelude.{◌≡◌};

use vx_dtype::NoMemory;
use vx_request::FileRequestError;
use vx_scan::ScanError;

/// The part of a block file that isn't as it has to be: the first one, in this order.
#[derive(Clone, Copy, PartialEq, Eq, Debug)]
pub enum FilePart {
    /// The first eight bytes aren't the mark of a file.
    Magic,
    /// No number and header of that many bytes follow.
    Header,
    /// The header's statistics break a rule.
    Zones,
    /// The last range doesn't end where the bytes end.
    End,
    /// A range that the scan reads isn't the values of its column.
    Column,
}

/// Why the scan of a block file that a request holds has no report.
#[derive(PartialEq, Eq, Debug, Drop)]
pub enum FileScanError {
    /// There was no memory.
    NoMemory,
    /// The input is no request of the scan of a block file.
    Request(FileRequestError),
    /// The bytes are no block file, or a column that the scan reads of it is damaged.
    BadFile(FilePart),
    /// The expressions are refused, or the scan breaks: by Overflow or BadCast.
    Scan(ScanError),
}

impl From<NoMemory> for FileScanError {
    ghost use Rattle.vx_file_query.specs.declared.errors.FileScanError.TheVariants.{NoMemory as OutOfMemory};

    ghost from_gives = { λ _ e. e ≡ OutOfMemory };

    fn from(_error: NoMemory) -> FileScanError {
        FileScanError::NoMemory
    }
}

impl From<FileRequestError> for FileScanError {
    ghost use Rattle.vx_file_query.specs.FileAnswers.{request_error};

    ghost from_gives = { λ refusal e. e ≡ request_error refusal };

    fn from(error: FileRequestError) -> FileScanError {
        match error {
            FileRequestError::NoMemory => FileScanError::NoMemory,
            error => FileScanError::Request(error),
        }
    }
}
