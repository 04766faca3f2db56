// Where the bytes of a program go.
ghost use Rattle.std.specs.Prelude.{ℕ, ◌<◌, ◌≤◌, List, length, Option, IfOk};
ghost use Rattle.vx_io.specs.Ends.{HasCause, WritesTo};

/// A write failed.
#[derive(PartialEq, Eq, Debug, Drop)]
pub struct WriteFailed;

/// A sink of bytes. It has two meanings: the bytes that were written, where it tells them, and the number of its
/// faults, which never falls. A count of 2^64 - 1 counts as risen.
pub trait Sink {
    ghost written: { Self → Option (List ℕ) };

    ghost faults: { Self → ℕ };

    /// Writes the front of a piece and answers how many bytes it took, at least one of a piece that isn't empty. It
    /// fails only where a fault was counted, and has then taken nothing.
    fn write(&mut self, piece: &[u8]) -> Result<usize, WriteFailed>
        ensures bound { IfOk result (λ n. n ≤ length piece.now) }
        ensures moves { IfOk result (λ n. 0 < length piece.now → 0 < n) }
        ensures bytes { WritesTo (written self.old) (written self.new) piece.now result }
        ensures cause { HasCause (faults self.old) (faults self.new) result };
}
