// Why a run ends before its rows are written whole.
ghost use Rattle.std.specs.Prelude.{◌≡◌};
ghost use Rattle.vx_shell.specs.Refusals.{refusal_kind, refusal_status, IsFolderRefusal, IsSettled, IsUnopened};

use std::alloc::{AllocError, AllocFailed, Global};
use vx_dtype::{Mem, NoMemory};
use vx_file::FileError;
use vx_files::OpenError;
use vx_folder::FolderError;
use vx_io::{InputError, WriteFailed};
use vx_request::RequestError;
use vx_shell_words::BlockRange;
use vx_sql_lines::ToldError;

/// Why a run ends before its rows are written whole.
#[derive(Debug, Drop)]
pub(crate) enum Refusal {
    /// There was no memory.
    NoMemory,
    /// The words have no form.
    Usage,
    /// Blocks are asked that the table hasn't: it has so many.
    PastEnd(BlockRange, usize),
    /// The standard input tells no table.
    NoTable(RequestError),
    /// The bytes of a path are no block file.
    NoFile(FileError),
    /// The files of a folder are no table: the line that tells why.
    Mixed(String),
    /// A column that is read is damaged.
    Damaged,
    /// The statement isn't taken, or names nothing over the table: the line that tells why.
    Statement(String),
    /// ORDER BY stands without LIMIT.
    Unlimited,
    /// More first rows are asked by ORDER BY than can be held at once.
    TooMany(u64),
    /// A sum or difference has no value.
    Overflow,
    /// A cast has no value.
    BadCast,
    /// The path can't be opened.
    NotOpened(String),
    /// A read of the standard input or of a block file failed.
    Unread,
    /// A column of a store wasn't read.
    StoreFault,
    /// A write to the output failed.
    Unwritten,
}

impl Refusal {
    /// The exit status.
    pub(crate) fn status(&self) -> u8
        ensures { result ≡ refusal_status self.now }
    {
        match self {
            Refusal::Usage | Refusal::PastEnd(_, _) => 2,
            Refusal::NoTable(_) | Refusal::NoFile(_) | Refusal::Mixed(_) | Refusal::Damaged => 3,
            Refusal::Statement(_) | Refusal::Unlimited | Refusal::TooMany(_) => 4,
            Refusal::Overflow | Refusal::BadCast => 5,
            Refusal::NotOpened(_) | Refusal::Unread | Refusal::StoreFault => 6,
            Refusal::Unwritten => 7,
            Refusal::NoMemory => 8,
        }
    }

    /// The line that is told on standard error.
    pub(crate) fn line(&self, alloc: Global) -> Mem<String> {
        match self {
            Refusal::PastEnd(range, blocks) => past_end_line(alloc, *range, *blocks),
            Refusal::NoTable(error) => Ok(format!(in alloc;
                "error: stdin is no table: {error:?}\n"
            )?),
            Refusal::NoFile(error) => Ok(format!(in alloc; "error: no block file: {error:?}\n")?),
            Refusal::Mixed(line) | Refusal::Statement(line) => Ok(format!(in alloc;
                "error: {line}\n"
            )?),
            Refusal::TooMany(count) => too_many_line(alloc, *count),
            Refusal::NotOpened(path) => Ok(format!(in alloc; "error: {path} can't be opened\n")?),
            _ => Ok(String::from_str(alloc, self.fixed_line())?),
        }
    }

    /// The line of a refusal that holds nothing. None is told of an output that can't be written: most often its reader has enough.
    pub(crate) fn fixed_line(&self) -> &'static str {
        match self {
            Refusal::Usage => "error: usage: sql STATEMENT [--stats] [--blocks A..B]\n",
            Refusal::Damaged => "error: a column of a block file is damaged\n",
            Refusal::Unlimited => "error: ORDER BY needs a LIMIT\n",
            Refusal::Overflow => "error: a sum or a difference has no value of its type\n",
            Refusal::BadCast => "error: a cast has no value of its type\n",
            Refusal::Unread | Refusal::StoreFault => "error: a read failed\n",
            Refusal::Unwritten => "",
            _ => "error: there is no memory\n",
        }
    }
}

/// Blocks are asked that the table hasn't.
fn past_end_line(alloc: Global, range: BlockRange, blocks: usize) -> Mem<String> {
    let BlockRange { from, up_to } = range;
    Ok(format!(in alloc; "error: --blocks {from}..{up_to}: the table has {blocks} blocks\n")?)
}

/// More first rows are asked than can be held at once.
fn too_many_line(alloc: Global, count: u64) -> Mem<String> {
    Ok(format!(in alloc; "error: LIMIT {count}: behind ORDER BY it is 1048576 at most\n")?)
}

impl From<NoMemory> for Refusal {
    ghost use Rattle.vx_shell.specs.declared.errors.Refusal.TheVariants.{NoMemory as OutOfMemory};

    ghost from_gives = { λ _ e. e ≡ OutOfMemory };

    fn from(_error: NoMemory) -> Refusal {
        Refusal::NoMemory
    }
}

impl From<AllocError> for Refusal {
    ghost use Rattle.vx_shell.specs.declared.errors.Refusal.TheVariants.{NoMemory as OutOfMemory};

    ghost from_gives = { λ _ e. e ≡ OutOfMemory };

    fn from(_error: AllocError) -> Refusal {
        Refusal::NoMemory
    }
}

impl<T: Drop> From<AllocFailed<T>> for Refusal {
    ghost use Rattle.vx_shell.specs.declared.errors.Refusal.TheVariants.{NoMemory as OutOfMemory};

    ghost from_gives = { λ _ e. e ≡ OutOfMemory };

    fn from(_error: AllocFailed<T>) -> Refusal {
        Refusal::NoMemory
    }
}

impl From<ToldError> for Refusal {
    ghost use Rattle.vx_shell.specs.Refusals.{statement_refusal};

    ghost from_gives = { λ error e. e ≡ statement_refusal error };

    fn from(error: ToldError) -> Refusal {
        match error {
            ToldError::NoMemory => Refusal::NoMemory,
            ToldError::Refused(line) => Refusal::Statement(line),
        }
    }
}

impl From<InputError> for Refusal {
    ghost use Rattle.vx_shell.specs.Refusals.{input_refusal};

    ghost from_gives = { λ error e. e ≡ input_refusal error };

    fn from(error: InputError) -> Refusal {
        match error {
            InputError::NoMemory => Refusal::NoMemory,
            InputError::ReadFault => Refusal::Unread,
        }
    }
}

impl From<RequestError> for Refusal {
    ghost use Rattle.vx_shell.specs.Refusals.{table_refusal};

    ghost from_gives = { λ error e. e ≡ table_refusal error };

    fn from(error: RequestError) -> Refusal {
        match error {
            RequestError::NoMemory => Refusal::NoMemory,
            other => Refusal::NoTable(other),
        }
    }
}

impl From<FileError> for Refusal {
    ghost use Rattle.vx_shell.specs.Refusals.{file_refusal};

    ghost from_gives = { λ error e. e ≡ file_refusal error };

    fn from(error: FileError) -> Refusal {
        match error {
            FileError::NoMemory => Refusal::NoMemory,
            FileError::ReadFault => Refusal::Unread,
            other => Refusal::NoFile(other),
        }
    }
}

impl From<WriteFailed> for Refusal {
    ghost use Rattle.vx_shell.specs.declared.errors.Refusal.TheVariants.{Unwritten as Failed};

    ghost from_gives = { λ _ e. e ≡ Failed };

    fn from(_error: WriteFailed) -> Refusal {
        Refusal::Unwritten
    }
}

/// Why a path isn't opened.
pub(crate) fn open_refusal(alloc: Global, path: &str, error: OpenError) -> Refusal
    ensures { IsUnopened error (refusal_kind result) }
{
    match error {
        OpenError::NoMemory => Refusal::NoMemory,
        OpenError::NotOpened => match String::from_str(alloc, path) {
            Ok(path) => Refusal::NotOpened(path),
            Err(_) => Refusal::NoMemory,
        },
    }
}

/// A path that can't be opened, where there is memory for it.
fn not_opened(path: Mem<String>) -> Refusal
    ensures { IsSettled 6 (refusal_kind result) }
{
    match path {
        Ok(path) => Refusal::NotOpened(path),
        Err(NoMemory) => Refusal::NoMemory,
    }
}

/// The files of a folder are no table, where there is memory for the line that tells why.
fn mixed(line: Mem<String>) -> Refusal
    ensures { IsSettled 3 (refusal_kind result) }
{
    match line {
        Ok(line) => Refusal::Mixed(line),
        Err(NoMemory) => Refusal::NoMemory,
    }
}

/// The path of a file of a folder.
fn path_in(alloc: Global, folder: &str, name: &str) -> Mem<String> {
    Ok(format!(in alloc; "{folder}{name}")?)
}

/// Why the files of a folder aren't opened as one table.
pub(crate) fn folder_refusal(alloc: Global, folder: &str, error: &FolderError) -> Refusal
    ensures { IsFolderRefusal error.now (refusal_kind result) }
{
    match error {
        FolderError::NoMemory => Refusal::NoMemory,
        FolderError::ReadFault => Refusal::Unread,
        FolderError::NotListed => open_refusal(alloc, folder, OpenError::NotOpened),
        FolderError::NotOpened(name) => not_opened(path_in(alloc, folder, name.as_str())),
        _ => mixed(error.text(alloc)),
    }
}
