// Why a statement isn't explained over the block files of a folder.
ghost use Rattle.std.specs.Prelude.{◌≡◌, IfOk};
ghost use Rattle.std.specs.String.{string_bytes};
ghost use Rattle.vx_folder.specs.FolderTexts.{error_text};
ghost use Rattle.vx_laws_explaining.specs.Explaining.{error_line};
ghost use Rattle.vx_explaining.specs.TableSteps.{IsFileRefusal, IsFolderRefusal, TellsText};

use crate::errors::Refusal;
use std::alloc::Global;
use vx_dtype::{Mem, NoMemory};
use vx_file_open::FileError;
use vx_folder::FolderError;

/// The line that tells why the block files of a folder are no table.
fn folder_line(alloc: Global, error: &FolderError) -> Mem<String>
    ensures { IfOk result (λ line. string_bytes line ≡ error_line (error_text error.now)) }
{
    let text = error.text(alloc)?;
    Ok(format!(in alloc; "error: {text}\n")?)
}

/// A file of a folder can't be opened.
fn unopened(alloc: Global, error: &FolderError) -> Refusal
    ensures { TellsText 6 (error_text error.now) result }
{
    match folder_line(alloc, error) {
        Ok(line) => Refusal::NotOpened(line),
        Err(NoMemory) => Refusal::NoMemory,
    }
}

/// The block files of a folder are no table.
fn mixed(alloc: Global, error: &FolderError) -> Refusal
    ensures { TellsText 3 (error_text error.now) result }
{
    match folder_line(alloc, error) {
        Ok(line) => Refusal::Mixed(line),
        Err(NoMemory) => Refusal::NoMemory,
    }
}

/// A file of a folder is no block file, by its own error.
fn misfiled(alloc: Global, error: &FolderError, of_file: &FileError) -> Refusal
    ensures { IsFileRefusal of_file.now (error_text error.now) result }
{
    match of_file {
        FileError::NoMemory => Refusal::NoMemory,
        FileError::ReadFault => Refusal::Unread,
        FileError::BadMagic => mixed(alloc, error),
        FileError::BadHeader => mixed(alloc, error),
        FileError::BadZones(_) => mixed(alloc, error),
        FileError::BadEnd => mixed(alloc, error),
    }
}

/// Why the block files of a folder aren't one table.
pub(crate) fn folder_refusal(alloc: Global, error: &FolderError) -> Refusal
    ensures { IsFolderRefusal error.now result }
{
    match error {
        FolderError::NoMemory => Refusal::NoMemory,
        FolderError::ReadFault => Refusal::Unread,
        FolderError::NotListed => Refusal::Unlisted,
        FolderError::NoFile => mixed(alloc, error),
        FolderError::NotOpened(_) => unopened(alloc, error),
        FolderError::NoBlockFile(_, of_file) => misfiled(alloc, error, of_file),
        FolderError::Unlike(_) => mixed(alloc, error),
        FolderError::TooManyBlocks => mixed(alloc, error),
    }
}
