// Where the bytes of a file come from.
ghost use Rattle.std.specs.Prelude.{ℕ, ◌≡◌, ◌≤◌, List, length, Option, IfOk};
ghost use Rattle.vx_io.specs.Ends.{HasCause};
ghost use Rattle.vx_file_ranges.specs.Places.{TellsBytes, ReadsAt};

/// A read of a range failed.
#[derive(PartialEq, Eq, Debug, Drop)]
pub struct RangeFailed;

/// A source of bytes that is read by places. It has two meanings: its bytes, where it tells them, which no call changes; and the number of its faults,
/// which never falls and rises only where a read fails. A count of 2^64 - 1 counts as risen.
pub trait Ranged {
    ghost bytes: { Self → Option (List ℕ) };

    ghost faults: { Self → ℕ };

    /// Reads the bytes from a place on, which is counted from 0, into the front of a buffer, and answers how many it read. It answers 0 for a buffer
    /// that isn't empty only at the end of the bytes that it tells or past it. It fails only where a fault was counted.
    fn read_at(&mut self, place: u64, into: &mut [u8]) -> Result<usize, RangeFailed>
        ensures bound { IfOk result (λ n. n ≤ length into.old) }
        ensures told { TellsBytes (bytes self.old) }
        ensures same { bytes self.new ≡ bytes self.old }
        ensures read { ReadsAt (bytes self.old) place into.new result }
        ensures cause { HasCause (faults self.old) (faults self.new) result }
        ensures quiet { IfOk result (λ _. faults self.new ≡ faults self.old) };
}
