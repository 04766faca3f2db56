// Files of which a read fails that asks for more than the header.
ghost use Rattle.std.specs.Prelude.{◌<◌, ◌^◌, ◌-◌, All, IfOk, Some};
ghost use Rattle.vx_files.specs.Kept.{unknown};
ghost use Rattle.vx_files.specs.Listed.{unlisted};

use std::alloc::Global;
use vx_dtype::Mem;
use vx_file_ranges::{MemoryRange, RangeFailed, Ranged};
use vx_files::{Files, KeepError, MemoryFiles, NamedBytes, OpenError};

/// How many bytes a read gives at most: few, so that a header takes several.
const MOST: usize = 7;

/// Files in memory whose reads are watched: each file fails at the read of a number, from 1, where there is one, and at each that asks for bytes of its
/// columns. One byte alone may be asked of them, since that a file ends where its last column does is seen by such a read. The file of one path can't be
/// opened, where one is meant.
#[derive(Drop)]
pub(crate) struct WatchedFiles {
    alloc: Global,
    files: MemoryFiles,
    fails: u64,
    front: u64,
    closed: String,
    faults: u64,
}

impl WatchedFiles {
    /// These files, whose columns begin at a place, or whose reads may ask for any bytes where this is 0; and the path of the one that can't be opened, empty
    /// where none is meant.
    pub(crate) fn new(
        alloc: Global,
        files: MemoryFiles,
        fails: u64,
        front: u64,
        closed: String,
    ) -> WatchedFiles {
        WatchedFiles {
            alloc,
            files,
            fails,
            front,
            closed,
            faults: 0,
        }
    }
}

/// The number of the call that fails, where there is one.
pub(crate) fn numbers_of(alloc: Global, fails: u64) -> Mem<Vec<u64>>
    ensures { IfOk result (λ numbers. All (λ n. n < 2 ^ 64 - 1) numbers.items) }
{
    if fails == 0 {
        return Ok(Vec::new(alloc));
    }
    Ok(vec![in alloc; fails.min(1_000_000)]?)
}

/// A file whose reads are watched.
#[derive(Drop)]
pub(crate) struct WatchedFile {
    range: MemoryRange,
    front: u64,
    faults: u64,
}

impl WatchedFile {
    /// Whether a read of so many bytes at a place asks for bytes of the columns, and not for one alone.
    fn asks_columns(&self, place: u64, count: usize) -> bool {
        self.front > 0 && count > 1 && place.saturating_add(count as u64) > self.front
    }
}

impl Ranged for WatchedFile {
    ghost bytes = { λ s. Some s.range.bytes };

    ghost faults = { λ s. s.faults };

    fn read_at(&mut self, place: u64, into: &mut [u8]) -> Result<usize, RangeFailed> {
        let asks_columns = self.asks_columns(place, into.len());
        let read = self.range.read_at(place, into);
        if asks_columns {
            self.faults = self.faults.saturating_add(1);
            return Err(RangeFailed);
        }
        match read {
            Ok(n) => Ok(n),
            Err(failed) => {
                self.faults = self.faults.saturating_add(1);
                Err(failed)
            }
        }
    }
}

impl Files for WatchedFiles {
    type File = WatchedFile;

    ghost kept = { λ _ _. unknown };

    ghost listed = { λ _ _. unlisted };

    ghost faults = { λ s. s.faults };

    fn open(&self, path: &str) -> Result<WatchedFile, OpenError> {
        if path == self.closed.as_str() {
            return Err(OpenError::NotOpened);
        }
        let Some(bytes) = self.files.bytes_of(path) else {
            return Err(OpenError::NotOpened);
        };
        let Ok(copy) = Vec::from_clones(self.alloc, bytes) else {
            return Err(OpenError::NoMemory);
        };
        match numbers_of(self.alloc, self.fails) {
            Ok(fails) => Ok(WatchedFile {
                range: MemoryRange::new(copy, MOST, fails),
                front: self.front,
                faults: 0,
            }),
            Err(_) => Err(OpenError::NoMemory),
        }
    }

    fn list(&self, path: &str) -> Result<Vec<String>, OpenError> {
        self.files.list(path)
    }

    fn keep(&mut self, _path: &str, _bytes: &[u8], _replaces: bool) -> Result<(), KeepError> {
        self.faults = self.faults.saturating_add(1);
        Err(KeepError::NotKept)
    }

    fn keep_folder(
        &mut self,
        _folder: &str,
        _files: &[NamedBytes],
        _replaces: bool,
    ) -> Result<(), KeepError> {
        self.faults = self.faults.saturating_add(1);
        Err(KeepError::NotKept)
    }
}
