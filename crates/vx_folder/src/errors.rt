// Why a folder isn't opened.
ghost use Rattle.std.specs.Prelude.{◌≡◌, ◌++◌, IfOk};
ghost use Rattle.std.specs.String.{string_bytes};
ghost use Rattle.vx_folder.specs.FolderTexts.{error_text, unfiled_text};

use std::alloc::{AllocError, AllocFailed, Global};
use vx_dtype::{Mem, NoMemory};
use vx_file_open::FileError;

/// Why the block files of a folder aren't opened together. Where it is known what stands in the folder and what each file is, the refusals from NoFile on come
/// exactly where they say.
#[derive(Debug, Drop)]
pub enum FolderError {
    /// There was no memory.
    NoMemory,
    /// A read of a file's header failed.
    ReadFault,
    /// The folder can't be listed.
    NotListed,
    /// No block file stands in the folder.
    NoFile,
    /// The file of this name can't be opened; those before it could, and are alike.
    NotOpened(String),
    /// The file of this name is no block file, for this reason; those before it are, and are alike.
    NoBlockFile(String, FileError),
    /// The file of this name has other columns than those before it, or statistics of other paths or kinds.
    Unlike(String),
    /// The files have 2^32 blocks or more together.
    TooManyBlocks,
}

impl From<AllocError> for FolderError {
    ghost use Rattle.vx_folder.specs.declared.errors.FolderError.TheVariants.{NoMemory as OutOfMemory};

    ghost from_gives = { λ _ e. e ≡ OutOfMemory };

    fn from(_error: AllocError) -> FolderError {
        FolderError::NoMemory
    }
}

impl<T: Drop> From<AllocFailed<T>> for FolderError {
    ghost use Rattle.vx_folder.specs.declared.errors.FolderError.TheVariants.{NoMemory as OutOfMemory};

    ghost from_gives = { λ _ e. e ≡ OutOfMemory };

    fn from(_error: AllocFailed<T>) -> FolderError {
        FolderError::NoMemory
    }
}

impl From<NoMemory> for FolderError {
    ghost use Rattle.vx_folder.specs.declared.errors.FolderError.TheVariants.{NoMemory as OutOfMemory};

    ghost from_gives = { λ _ e. e ≡ OutOfMemory };

    fn from(_error: NoMemory) -> FolderError {
        FolderError::NoMemory
    }
}

impl FolderError {
    /// What is told of the error: where it is one of the folder's files their fault, which names the file.
    pub fn text(&self, alloc: Global) -> Mem<String>
        ensures { IfOk result (λ text. string_bytes text ≡ error_text self.now) }
    {
        match self {
            FolderError::NoMemory => owned(alloc, "there is no memory"),
            FolderError::ReadFault => owned(alloc, "a read failed"),
            FolderError::NotListed => owned(alloc, "the folder can't be listed"),
            FolderError::NoFile => owned(alloc, "the folder has no block file"),
            FolderError::NotOpened(name) => behind(alloc, name.as_str(), " can't be opened"),
            FolderError::NoBlockFile(name, error) => unfiled_text(alloc, name.as_str(), error),
            FolderError::Unlike(name) => behind(
                alloc,
                name.as_str(),
                " hasn't the columns and statistics of the files before it",
            ),
            FolderError::TooManyBlocks => owned(
                alloc,
                "the files of the folder have more than 4294967295 blocks",
            ),
        }
    }
}

/// A text of its own.
fn owned(alloc: Global, text: &str) -> Mem<String>
    ensures { IfOk result (λ own. string_bytes own ≡ text.now) }
{
    Ok(String::from_str(alloc, text)?)
}

/// A name with a text behind it.
fn behind(alloc: Global, name: &str, text: &str) -> Mem<String>
    ensures { IfOk result (λ own. string_bytes own ≡ name.now ++ text.now) }
{
    Ok(format!(in alloc; "{name}{text}")?)
}

/// Why the file of a name is no block file.
fn unfiled_text(alloc: Global, name: &str, error: &FileError) -> Mem<String>
    ensures { IfOk result (λ text. string_bytes text ≡ unfiled_text name.now error.now) }
{
    match error {
        FileError::NoMemory => owned(alloc, "there is no memory"),
        FileError::ReadFault => owned(alloc, "a read failed"),
        FileError::BadMagic => behind(
            alloc,
            name,
            ": no block file: it doesn't begin with the mark",
        ),
        FileError::BadHeader => behind(alloc, name, ": no block file: it has no header"),
        FileError::BadZones(_) => behind(
            alloc,
            name,
            ": no block file: a name or a statistic stands twice in its header",
        ),
        FileError::BadEnd => behind(
            alloc,
            name,
            ": no block file: it doesn't end where its last column does",
        ),
    }
}

/// Why a file of a folder isn't opened.
#[derive(Debug, Drop)]
pub(crate) enum FileFault {
    /// There was no memory.
    NoMemory,
    /// A read of its header failed.
    ReadFault,
    /// Its path can't be opened.
    NotOpened,
    /// It is no block file.
    NoBlockFile(FileError),
}
