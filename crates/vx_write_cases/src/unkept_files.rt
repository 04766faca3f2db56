// Files of which none can be kept.
ghost use Rattle.vx_files.specs.Kept.{unknown};
ghost use Rattle.vx_files.specs.Listed.{unlisted};

use vx_file_ranges::MemoryRange;
use vx_files::{Files, KeepError, NamedBytes, OpenError};

/// Files of which none can be kept: a try counts a fault, but where something stands under each path, as a file does in the way of a folder, and isn't to be
/// replaced. Nothing is opened or listed, and nothing is known of what stands where.
#[derive(Drop)]
pub(crate) struct UnkeptFiles {
    stands: bool,
    faults: u64,
}

impl UnkeptFiles {
    /// Without faults so far, and with something under each path or without.
    pub(crate) fn new(stands: bool) -> UnkeptFiles {
        UnkeptFiles { stands, faults: 0 }
    }
}

impl Files for UnkeptFiles {
    type File = MemoryRange;

    ghost kept = { λ _ _. unknown };

    ghost listed = { λ _ _. unlisted };

    ghost faults = { λ s. s.faults };

    fn open(&self, _path: &str) -> Result<MemoryRange, OpenError> {
        Err(OpenError::NotOpened)
    }

    fn list(&self, _path: &str) -> Result<Vec<String>, OpenError> {
        Err(OpenError::NotOpened)
    }

    fn keep(&mut self, _path: &str, _bytes: &[u8], replaces: bool) -> Result<(), KeepError> {
        if self.stands {
            if !replaces {
                return Err(KeepError::Exists);
            }
        }
        self.faults = self.faults.saturating_add(1);
        Err(KeepError::NotKept)
    }

    fn keep_folder(
        &mut self,
        _folder: &str,
        _files: &[NamedBytes],
        replaces: bool,
    ) -> Result<(), KeepError> {
        if self.stands {
            if !replaces {
                return Err(KeepError::Exists);
            }
        }
        self.faults = self.faults.saturating_add(1);
        Err(KeepError::NotKept)
    }
}
