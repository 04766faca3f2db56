// A file of the operating system as a source that is read by places.
ghost use Rattle.std.specs.Prelude.{◌≡◌, None};

use std::fmt;
use std::fs::File;
use std::os::unix::fs::FileExt;
use vx_file_ranges::{RangeFailed, Ranged};

/// A file of the operating system as a source. It tells no bytes, since others may write to it, and counts its errors. A read gives what one call of the
/// system gives, at the place that is asked, and leaves the position of the file where it is.
#[derive(Drop)]
pub struct FileRange {
    file: File,
    faults: u64,
}

/// Without the file itself, which has no text.
impl fmt::Debug for FileRange {
    fn fmt<F: fmt::Write>(&self, f: &mut fmt::Formatter<F>) -> fmt::Result {
        f.debug_struct("FileRange")
            .field("faults", &self.faults)
            .finish_non_exhaustive()
    }
}

impl FileRange {
    /// A file that is open for reading, as `File::open` gives it, as a source without faults so far.
    pub fn new(file: File) -> FileRange
        ensures { result.faults ≡ 0 }
    {
        FileRange { file, faults: 0 }
    }

    /// How many reads failed; at 2^64 - 1 the count stays.
    pub fn faults(&self) -> u64
        ensures { result ≡ self.now.faults }
    {
        self.faults
    }
}

impl Ranged for FileRange {
    ghost bytes = { λ _. None };

    ghost faults = { λ s. s.faults };

    fn read_at(&mut self, place: u64, into: &mut [u8]) -> Result<usize, RangeFailed> {
        match self.file.read_at(into, place) {
            Ok(n) => Ok(n),
            Err(_) => {
                self.faults = self.faults.saturating_add(1);
                Err(RangeFailed)
            }
        }
    }
}
