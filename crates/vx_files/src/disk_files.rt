// The files of the operating system: the trusted edge.
ghost use Rattle.vx_files.specs.Kept.{unknown};
ghost use Rattle.vx_files.specs.Listed.{unlisted};

use crate::disk_folders::{keep_beside, write_new};
use crate::errors::{KeepError, OpenError};
use crate::files::{Files, NamedBytes};
use std::fs::File;
use std::io::ErrorKind;
use std::{fs, io};
use vx_file_disk::FileRange;

/// The files of the operating system. It tells of no path what it leads to, and of no folder what stands in it, since others may write there. A path is taken
/// as the system takes it: one that doesn't begin with `/` from the folder that the process runs in.
///
/// A file is written beside its path, under the path with `.part` behind it, and gets its own name once it is written whole; so no reader meets half of one.
/// So is a folder, and one that it replaces is put aside under the path with `.old.part` behind it, until the new one has its name.
#[derive(Drop)]
pub struct DiskFiles<'r> {
    rt: &'r HostRuntime,
    faults: u64,
}

impl<'r> DiskFiles<'r> {
    /// The files that this runtime opens, without faults so far.
    pub fn new(rt: &'r HostRuntime) -> DiskFiles<'r> {
        DiskFiles { rt, faults: 0 }
    }
}

/// The names of what stands in a folder, each of which is to be UTF-8.
fn names_in(rt: &HostRuntime, path: &str) -> io::Result<Vec<String>> {
    let mut names = Vec::new(rt.alloc());
    for entry in fs::read_dir(rt, path)? {
        let entry = entry?;
        names.push(String::from_str(rt.alloc(), entry.file_name())?)?;
    }
    Ok(names)
}

/// Gives a file that was written its own name, which is free where nothing is to be replaced.
fn name_it(rt: &HostRuntime, part: &str, path: &str, replaces: bool) -> io::Result<()> {
    if replaces {
        return fs::rename(rt, part, path);
    }
    fs::hard_link(rt, part, path)?;
    fs::remove_file(rt, part)
}

/// Writes bytes beside a path, and gives them the path. Where that fails nothing is left beside it.
fn write_beside(
    rt: &HostRuntime,
    part: &str,
    path: &str,
    bytes: &[u8],
    replaces: bool,
) -> io::Result<()> {
    let written = match write_new(rt, part, bytes) {
        Ok(()) => name_it(rt, part, path, replaces),
        Err(error) => Err(error),
    };
    if written.is_err() {
        let _ = fs::remove_file(rt, part);
    }
    written
}

impl Files for DiskFiles<'_> {
    type File = FileRange;

    ghost kept = { λ _ _. unknown };

    ghost listed = { λ _ _. unlisted };

    ghost faults = { λ s. s.faults };

    fn open(&self, path: &str) -> Result<FileRange, OpenError> {
        match File::open(self.rt, path) {
            Ok(file) => Ok(FileRange::new(file)),
            Err(error) if error.kind() == ErrorKind::OutOfMemory => Err(OpenError::NoMemory),
            Err(_) => Err(OpenError::NotOpened),
        }
    }

    fn list(&self, path: &str) -> Result<Vec<String>, OpenError> {
        match names_in(self.rt, path) {
            Ok(names) => Ok(names),
            Err(error) if error.kind() == ErrorKind::OutOfMemory => Err(OpenError::NoMemory),
            Err(_) => Err(OpenError::NotOpened),
        }
    }

    fn keep(&mut self, path: &str, bytes: &[u8], replaces: bool) -> Result<(), KeepError> {
        let Ok(part) = format!(in self.rt.alloc(); "{path}.part") else {
            return Err(KeepError::NoMemory);
        };
        match write_beside(self.rt, part.as_str(), path, bytes, replaces) {
            Ok(()) => Ok(()),
            Err(error) if error.kind() == ErrorKind::OutOfMemory => Err(KeepError::NoMemory),
            Err(error) if !replaces && error.kind() == ErrorKind::AlreadyExists => {
                Err(KeepError::Exists)
            }
            Err(_) => {
                self.faults = self.faults.saturating_add(1);
                Err(KeepError::NotKept)
            }
        }
    }

    fn keep_folder(
        &mut self,
        folder: &str,
        files: &[NamedBytes],
        replaces: bool,
    ) -> Result<(), KeepError> {
        match keep_beside(self.rt, folder, files, replaces) {
            Ok(true) => Ok(()),
            Ok(false) if !replaces => Err(KeepError::Exists),
            Err(error) if error.kind() == ErrorKind::OutOfMemory => Err(KeepError::NoMemory),
            _ => {
                self.faults = self.faults.saturating_add(1);
                Err(KeepError::NotKept)
            }
        }
    }
}
