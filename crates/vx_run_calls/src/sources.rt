// Bytes that are there as a source.
ghost use Rattle.std.specs.Prelude.{◌≡◌, ◌≤◌, ◌++◌, length, drop};

use vx_io::{ReadFailed, Source};

/// Bytes as a source that gives all that is asked and never fails.
#[derive(Debug, Drop)]
pub(crate) struct SliceSource<'a> {
    bytes: &'a [u8],
}

impl<'a> SliceSource<'a> {
    /// A source of these bytes.
    pub(crate) fn new(bytes: &'a [u8]) -> SliceSource<'a>
        ensures { result.bytes.now ≡ bytes.now }
    {
        SliceSource { bytes }
    }
}

impl<'a> Source for SliceSource<'a> {
    ghost use Rattle.std.specs.Prelude.{Some};

    ghost left = { λ s. Some s.bytes.now };

    ghost faults = { λ _. 0 };

    fn read(&mut self, into: &mut [u8]) -> Result<usize, ReadFailed> {
        let n = into.len().min(self.bytes.len());
        copy_front(into, &self.bytes[..n]);
        self.bytes = &self.bytes[n..];
        Ok(n)
    }
}

/// Copies a piece to the front of a buffer.
fn copy_front(into: &mut [u8], piece: &[u8])
    requires { length piece.now ≤ length into.old }
    ensures { into.new ≡ piece.now ++ drop (length piece.now) into.old }
{
    into[..piece.len()].copy_from_slice(piece);
}
