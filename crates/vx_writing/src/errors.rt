// Why a table isn't kept.
ghost use Rattle.std.specs.Prelude.{◌≡◌};
ghost use Rattle.vx_stats.specs.declared.errors.StatsError.TheVariants as stats;
ghost use Rattle.vx_writing.specs.WriteRefusals.{cut_refusal, file_refusal, refusal_status, IsOfCutting, IsOfFile};
ghost use Rattle.vx_writing.specs.declared.errors.Refusal.TheVariants.{NoMemory as OutOfMemory};

use crate::lines::refusal_line;
use std::alloc::{AllocError, AllocFailed, Global};
use vx_csv::{CsvError, CsvRefusal};
use vx_cutting::CutError;
use vx_dtype::{Mem, NoMemory};
use vx_file_bytes::WriteFileError;
use vx_files::KeepError;
use vx_io::InputError;
use vx_request::RequestError;
use vx_stats::StatsError;

/// Why the standard input tells no table.
#[derive(Debug, Drop)]
pub enum InputFault {
    /// It is no table as JSON.
    NoJson(RequestError),
    /// It is a text of CSV of more bytes than an input may have.
    LongText,
    /// It is no text of CSV of a table.
    NoCsv(CsvRefusal),
}

impl InputFault {
    /// The line that is told of it.
    fn line(&self, alloc: Global) -> Mem<String> {
        let why = match self {
            InputFault::NoJson(error) => format!(in alloc; "{error:?}")?,
            InputFault::LongText => String::from_str(alloc, "more than 16777216 bytes")?,
            InputFault::NoCsv(refusal) => refusal_line(alloc, refusal)?,
        };
        Ok(format!(in alloc; "error: stdin is no table: {why}\n")?)
    }
}

/// Why a table isn't kept.
#[derive(Debug, Drop)]
pub enum Refusal {
    /// There was no memory.
    NoMemory,
    /// The words have no form.
    Usage,
    /// A read of the standard input failed.
    Unread,
    /// The standard input tells no table.
    NoTable(InputFault),
    /// Something in the table is too long for a file.
    TooLong,
    /// Something stands under the path.
    Exists,
    /// The file or the folder couldn't be kept.
    NotKept,
}

impl Refusal {
    /// The exit status.
    pub(crate) fn status(&self) -> u8
        ensures { result ≡ refusal_status self.now }
    {
        match self {
            Refusal::Usage => 2,
            Refusal::NoTable(_) | Refusal::TooLong => 3,
            Refusal::Unread | Refusal::Exists => 6,
            Refusal::NotKept => 7,
            Refusal::NoMemory => 8,
        }
    }

    /// The line that is told on standard error.
    pub(crate) fn line(&self, alloc: Global) -> Mem<String> {
        match self {
            Refusal::NoTable(fault) => fault.line(alloc),
            _ => Ok(String::from_str(alloc, self.fixed_line())?),
        }
    }

    /// The line of a refusal that holds nothing.
    pub(crate) fn fixed_line(&self) -> &'static str {
        match self {
            Refusal::Usage => {
                "error: usage: write PATH [csv [--null TEXT] [--types TEXT]] [--rows N] [--force]\n"
            },
            Refusal::Unread => "error: a read failed\n",
            Refusal::TooLong => "error: the table is too long for a block file\n",
            Refusal::Exists => "error: the path leads to something: --force replaces it\n",
            Refusal::NotKept => "error: the path can't be written\n",
            _ => "error: there is no memory\n",
        }
    }
}

impl From<NoMemory> for Refusal {
    ghost use Rattle.vx_writing.specs.declared.errors.Refusal.TheVariants.{NoMemory as OutOfMemory};

    ghost from_gives = { λ _ e. e ≡ OutOfMemory };

    fn from(_error: NoMemory) -> Refusal {
        Refusal::NoMemory
    }
}

impl From<AllocError> for Refusal {
    ghost use Rattle.vx_writing.specs.declared.errors.Refusal.TheVariants.{NoMemory as OutOfMemory};

    ghost from_gives = { λ _ e. e ≡ OutOfMemory };

    fn from(_error: AllocError) -> Refusal {
        Refusal::NoMemory
    }
}

impl<T: Drop> From<AllocFailed<T>> for Refusal {
    ghost use Rattle.vx_writing.specs.declared.errors.Refusal.TheVariants.{NoMemory as OutOfMemory};

    ghost from_gives = { λ _ e. e ≡ OutOfMemory };

    fn from(_error: AllocFailed<T>) -> Refusal {
        Refusal::NoMemory
    }
}

impl From<InputError> for Refusal {
    ghost use Rattle.vx_writing.specs.WriteRefusals.{input_refusal};

    ghost from_gives = { λ error e. e ≡ input_refusal error };

    fn from(error: InputError) -> Refusal {
        match error {
            InputError::NoMemory => Refusal::NoMemory,
            InputError::ReadFault => Refusal::Unread,
        }
    }
}

impl From<RequestError> for Refusal {
    ghost use Rattle.vx_writing.specs.WriteRefusals.{table_refusal};

    ghost from_gives = { λ error e. e ≡ table_refusal error };

    fn from(error: RequestError) -> Refusal {
        match error {
            RequestError::NoMemory => Refusal::NoMemory,
            other => Refusal::NoTable(InputFault::NoJson(other)),
        }
    }
}

impl From<CsvError> for Refusal {
    ghost use Rattle.vx_writing.specs.WriteRefusals.{text_refusal};

    ghost from_gives = { λ error e. e ≡ text_refusal error };

    fn from(error: CsvError) -> Refusal {
        match error {
            CsvError::NoMemory => Refusal::NoMemory,
            CsvError::Refused(refusal) => Refusal::NoTable(InputFault::NoCsv(refusal)),
        }
    }
}

impl From<KeepError> for Refusal {
    ghost use Rattle.vx_writing.specs.WriteRefusals.{keep_refusal};

    ghost from_gives = { λ error e. e ≡ keep_refusal error };

    fn from(error: KeepError) -> Refusal {
        match error {
            KeepError::NoMemory => Refusal::NoMemory,
            KeepError::Exists => Refusal::Exists,
            KeepError::NotKept => Refusal::NotKept,
        }
    }
}

/// Why a table isn't cut anew. Its blocks are a table with its zones.
pub(crate) fn cut_refusal(error: CutError) -> Refusal
    requires { IsOfCutting error }
    ensures { result ≡ cut_refusal error }
{
    match error {
        CutError::NoMemory => Refusal::NoMemory,
        CutError::TooMany => Refusal::TooLong,
        CutError::WrongLength => unreachable!(),
        CutError::WrongType => unreachable!(),
    }
}

/// Why no statistics of a table are built. Its blocks are a table with its zones.
pub(crate) fn stats_refusal(error: StatsError) -> Refusal
    requires { error ≡ stats.NoMemory }
    ensures { result ≡ OutOfMemory }
{
    match error {
        StatsError::NoMemory => Refusal::NoMemory,
        StatsError::WrongLength => unreachable!(),
        StatsError::WrongType => unreachable!(),
    }
}

/// Why a table has no file. Its blocks are a table with its zones.
pub(crate) fn file_refusal(error: WriteFileError) -> Refusal
    requires { IsOfFile error }
    ensures { result ≡ file_refusal error }
{
    match error {
        WriteFileError::NoMemory => Refusal::NoMemory,
        WriteFileError::TooLong => Refusal::TooLong,
        WriteFileError::WrongLength => unreachable!(),
        WriteFileError::WrongType => unreachable!(),
    }
}
