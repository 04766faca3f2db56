// Files in memory of which one can't be opened, and the first read of one fails.
ghost use Rattle.std.specs.Prelude.{◌<◌, ◌^◌, ◌-◌, All, IfOk};
ghost use Rattle.vx_files.specs.Kept.{unknown};
ghost use Rattle.vx_files.specs.Listed.{unlisted};

use std::alloc::Global;
use vx_dtype::{Mem, NoMemory};
use vx_file_ranges::MemoryRange;
use vx_files::{Files, KeepError, MemoryFiles, NamedBytes, OpenError};

/// How many bytes a read gives at most: few, so that a header takes several.
const MOST: usize = 7;

/// Files in memory. That of one path can't be opened, and the first read of that of another one fails; where none is meant the path is empty.
#[derive(Drop)]
pub(crate) struct HinderedFiles {
    alloc: Global,
    files: MemoryFiles,
    closed: String,
    torn: String,
    faults: u64,
}

impl HinderedFiles {
    /// These files, with the path of the one that can't be opened, and of the one whose first read fails.
    pub(crate) fn new(
        alloc: Global,
        files: MemoryFiles,
        closed: String,
        torn: String,
    ) -> HinderedFiles {
        HinderedFiles {
            alloc,
            files,
            closed,
            torn,
            faults: 0,
        }
    }

    /// The number of the read that fails in the file of a path: the first, or none.
    fn failing(&self, path: &str) -> u64 {
        if path == self.torn.as_str() { 1 } else { 0 }
    }
}

/// The number of the call that fails, where there is one.
pub(crate) fn numbers_of(alloc: Global, fails: u64) -> Mem<Vec<u64>>
    ensures { IfOk result (λ numbers. All (λ n. n < 2 ^ 64 - 1) numbers.items) }
{
    if fails == 0 {
        return Ok(Vec::new(alloc));
    }
    Ok(vec![in alloc; fails.min(1_000_000)]?)
}

impl Files for HinderedFiles {
    type File = MemoryRange;

    ghost kept = { λ _ _. unknown };

    ghost listed = { λ _ _. unlisted };

    ghost faults = { λ s. s.faults };

    fn open(&self, path: &str) -> Result<MemoryRange, OpenError> {
        if path == self.closed.as_str() {
            return Err(OpenError::NotOpened);
        }
        let Some(bytes) = self.files.bytes_of(path) else {
            return Err(OpenError::NotOpened);
        };
        let Ok(copy) = Vec::from_clones(self.alloc, bytes) else {
            return Err(OpenError::NoMemory);
        };
        match numbers_of(self.alloc, self.failing(path)) {
            Ok(fails) => Ok(MemoryRange::new(copy, MOST, fails)),
            Err(NoMemory) => Err(OpenError::NoMemory),
        }
    }

    fn list(&self, path: &str) -> Result<Vec<String>, OpenError> {
        self.files.list(path)
    }

    fn keep(&mut self, _path: &str, _bytes: &[u8], _replaces: bool) -> Result<(), KeepError> {
        self.faults = self.faults.saturating_add(1);
        Err(KeepError::NotKept)
    }

    fn keep_folder(
        &mut self,
        _folder: &str,
        _files: &[NamedBytes],
        _replaces: bool,
    ) -> Result<(), KeepError> {
        self.faults = self.faults.saturating_add(1);
        Err(KeepError::NotKept)
    }
}
