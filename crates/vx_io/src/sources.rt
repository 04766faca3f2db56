// Where the bytes of a program come from.
ghost use Rattle.std.specs.Prelude.{ℕ, ◌≡◌, ◌≤◌, List, length, Option, IfOk};
ghost use Rattle.vx_io.specs.Ends.{HasCause, ReadsFrom};

/// A read failed.
#[derive(PartialEq, Eq, Debug, Drop)]
pub struct ReadFailed;

/// A source of bytes. It has two meanings: the bytes that are to come, where it tells them, and the number of its
/// faults, which never falls and rises only where a read fails. A count of 2^64 - 1 counts as risen.
pub trait Source {
    ghost left: { Self → Option (List ℕ) };

    ghost faults: { Self → ℕ };

    /// Reads into the front of a buffer and answers how many bytes it read. It answers 0 for a buffer that isn't
    /// empty only at the end of the bytes that it tells. It fails only where a fault was counted, and has then taken
    /// nothing.
    fn read(&mut self, into: &mut [u8]) -> Result<usize, ReadFailed>
        ensures bound { IfOk result (λ n. n ≤ length into.old) }
        ensures bytes { ReadsFrom (left self.old) (left self.new) into.new result }
        ensures cause { HasCause (faults self.old) (faults self.new) result }
        ensures quiet { IfOk result (λ _. faults self.new ≡ faults self.old) };
}
