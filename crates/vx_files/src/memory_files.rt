// Files in memory, for tests and for callers that have them all.
ghost use Rattle.std.specs.Prelude.{◌≡◌, map, option_map, is_some, IfOk};
ghost use Rattle.std.specs.String.{string_bytes};
ghost use Rattle.vx_files.specs.MemoryViews.{IsFileOf, bytes_among, is_name, name_in, names_among, kept_among, listed_among, file_view, files_view};

use crate::errors::{KeepError, OpenError};
use crate::files::{Files, NamedBytes};
use crate::memory_folders::{files_in, replace_below, some_is_below};
use std::alloc::Global;
use vx_dtype::Mem;
use vx_file_ranges::MemoryRange;

/// How many bytes a read of a file in memory gives at most.
const MOST: usize = 65536;

/// A file in memory: its path and its bytes.
#[derive(Debug, Drop)]
pub struct MemoryFile {
    pub path: String,
    pub bytes: Vec<u8>,
}

/// Files in memory. Of two of one path the first is opened. A folder is there where a file is in it. They count no faults.
#[derive(Debug, Drop)]
pub struct MemoryFiles {
    alloc: Global,
    files: Vec<MemoryFile>,
}

impl MemoryFiles {
    /// These files.
    pub fn new(alloc: Global, files: Vec<MemoryFile>) -> MemoryFiles
        ensures { files_view result ≡ map file_view files.items }
    {
        MemoryFiles { alloc, files }
    }

    /// The bytes of the first file of a path.
    pub fn bytes_of(&self, path: &str) -> Option<&[u8]>
        ensures { option_map (λ bytes. bytes.now) result ≡ bytes_among (files_view self.now) path.now }
    {
        bytes_among(self.files.as_slice(), path)
    }
}

/// The bytes of the first file of a path.
fn bytes_among<'f>(files: &'f [MemoryFile], path: &str) -> Option<&'f [u8]>
    ensures { option_map (λ bytes. bytes.now) result ≡ bytes_among (map file_view files.now) path.now }
{
    for file in files {
        if file.path.as_str() == path {
            return Some(file.bytes.as_slice());
        }
    }
    None
}

/// Whether there is a file of a path.
fn stands_among(files: &[MemoryFile], path: &str) -> bool
    ensures { result ≡ is_some (bytes_among (map file_view files.now) path.now) }
{
    bytes_among(files, path).is_some()
}

/// Whether a text is the name of a file in a folder.
fn is_name(text: &str) -> bool
    ensures { result ≡ is_name text.now }
{
    !text.is_empty() && !text.as_bytes().contains(&b'/')
}

/// The name under which the file of a path stands in a folder.
fn name_in<'p>(folder: &str, path: &'p str) -> Option<&'p str>
    ensures { option_map (λ name. name.now) result ≡ name_in folder.now path.now }
{
    let name = path.strip_prefix(folder)?;
    if is_name(name) { Some(name) } else { None }
}

/// The names of the files in a folder.
fn names_among(alloc: Global, files: &[MemoryFile], folder: &str) -> Mem<Vec<String>>
    ensures { IfOk result (λ names. map string_bytes names.items ≡ names_among (map file_view files.now) folder.now) }
{
    let mut names = Vec::new(alloc);
    for file in files {
        if let Some(name) = name_in(folder, file.path.as_str()) {
            names.push(String::from_str(alloc, name)?)?;
        }
    }
    Ok(names)
}

/// The file of a path and bytes.
fn file_of(alloc: Global, path: &str, bytes: &[u8]) -> Result<MemoryFile, KeepError>
    ensures { IsFileOf path.now bytes.now result }
{
    let Ok(path) = String::from_str(alloc, path) else {
        return Err(KeepError::NoMemory);
    };
    match Vec::from_clones(alloc, bytes) {
        Ok(bytes) => Ok(MemoryFile { path, bytes }),
        Err(_) => Err(KeepError::NoMemory),
    }
}

impl Files for MemoryFiles {
    type File = MemoryRange;

    ghost kept = { λ s path. kept_among (files_view s) path };

    ghost listed = { λ s path. listed_among (files_view s) path };

    ghost faults = { λ _. 0 };

    fn open(&self, path: &str) -> Result<MemoryRange, OpenError> {
        let Some(bytes) = self.bytes_of(path) else {
            return Err(OpenError::NotOpened);
        };
        match Vec::from_clones(self.alloc, bytes) {
            Ok(copy) => Ok(MemoryRange::new(copy, MOST, Vec::new(self.alloc))),
            Err(_) => Err(OpenError::NoMemory),
        }
    }

    fn list(&self, path: &str) -> Result<Vec<String>, OpenError> {
        let Ok(names) = names_among(self.alloc, self.files.as_slice(), path) else {
            return Err(OpenError::NoMemory);
        };
        if names.is_empty() {
            return Err(OpenError::NotOpened);
        }
        Ok(names)
    }

    fn keep(&mut self, path: &str, bytes: &[u8], replaces: bool) -> Result<(), KeepError> {
        if !replaces && stands_among(self.files.as_slice(), path) {
            return Err(KeepError::Exists);
        }
        let file = file_of(self.alloc, path, bytes)?;
        match self.files.insert(0, file) {
            Ok(()) => Ok(()),
            Err(_) => Err(KeepError::NoMemory),
        }
    }

    fn keep_folder(
        &mut self,
        folder: &str,
        files: &[NamedBytes],
        replaces: bool,
    ) -> Result<(), KeepError> {
        if !replaces && some_is_below(self.files.as_slice(), folder) {
            return Err(KeepError::Exists);
        }
        let Ok(new) = files_in(self.alloc, folder, files) else {
            return Err(KeepError::NoMemory);
        };
        match replace_below(&mut self.files, folder, new) {
            Ok(()) => Ok(()),
            Err(_) => Err(KeepError::NoMemory),
        }
    }
}
