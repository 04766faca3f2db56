// The bytes of a file in memory.
ghost use Rattle.std.specs.Prelude.{◌≡◌, ◌≤◌, ◌++◌, length, drop};

use std::marker::Model;
use vx_file_ranges::{RangeFailed, Ranged};

/// The bytes of a file in memory: a source that is read by places, of which no read fails.
#[derive(Debug, Drop)]
pub struct FileBytes {
    bytes: Vec<u8>,
}

impl Model for FileBytes {
    ghost use Rattle.std.specs.Prelude.{ℕ, List};

    ghost Value = { List ℕ };

    ghost use Rattle.vx_file_ranges.specs.Places.{AreBytes};

    ghost view = { λ s. s.bytes.items };

    ghost invariant = { λ s. AreBytes s.bytes.items };
}

impl FileBytes {
    /// These bytes.
    pub fn new(bytes: Vec<u8>) -> FileBytes
        ensures { result ≡ bytes.items }
    {
        FileBytes { bytes }
    }
}

impl Ranged for FileBytes {
    ghost use Rattle.std.specs.Prelude.{Some};

    ghost bytes = { λ s. Some s };

    ghost faults = { λ _. 0 };

    fn read_at(&mut self, place: u64, into: &mut [u8]) -> Result<usize, RangeFailed> {
        let start = place.min(self.bytes.len() as u64) as usize;
        let n = into.len().min(self.bytes.len() - start);
        copy_front(into, &self.bytes[start..start + n]);
        Ok(n)
    }
}

/// Copies a piece to the front of a buffer.
fn copy_front(into: &mut [u8], piece: &[u8])
    requires { length piece.now ≤ length into.old }
    ensures { into.new ≡ piece.now ++ drop (length piece.now) into.old }
{
    into[..piece.len()].copy_from_slice(piece);
}
