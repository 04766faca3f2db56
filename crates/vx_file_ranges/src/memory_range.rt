// A source over bytes in memory that is read by places, for tests and for callers that have them all.
ghost use Rattle.std.specs.Prelude.{◌≡◌, ◌-◌, ◌^◌, ◌<◌, ◌≤◌, ◌++◌, length, drop, min, Some, IfOk, IfErr, IsErr, IsTrue, ◌↔◌, All};
ghost use Rattle.vx_io.specs.Counts.{one_more};
ghost use Rattle.vx_io.specs.Ends.{HasCause};
ghost use Rattle.vx_io.specs.Listed.{read_fails};
ghost use Rattle.vx_file_ranges.specs.Places.{AreBytes, ReadsAt};

use crate::ranged::{RangeFailed, Ranged};
use std::marker::Model;

/// Bytes in memory as a source that is read by places. It gives at most so many bytes a call, and fails at the calls whose numbers are listed.
#[derive(Debug, Drop)]
pub struct MemoryRange {
    bytes: Vec<u8>,
    most: usize,
    fail: Vec<u64>,
    calls: u64,
    faults: u64,
}

impl Model for MemoryRange {
    ghost use Rattle.std.specs.Prelude.{◌<◌};
    ghost use Rattle.vx_io.specs.Listed.{SourceState};
    ghost use Rattle.vx_file_ranges.specs.Places.{AreBytes};

    ghost Value = { SourceState };

    ghost view = { λ s. record { bytes = s.bytes.items; most = s.most; listed = s.fail.items; calls = s.calls; faults = s.faults } };

    ghost invariant = { λ s. AreBytes s.bytes.items × (0 < s.most) };
}

impl MemoryRange {
    /// A source of these bytes that gives at most `most` a call, and fails at the calls whose numbers, from 1, are listed.
    pub fn new(bytes: Vec<u8>, most: usize, fail: Vec<u64>) -> MemoryRange
        requires some { 0 < most }
        requires countable { All (λ n. n < 2 ^ 64 - 1) fail.items }
        ensures { result ≡ record { bytes = bytes.items; most = most; listed = fail.items; calls = 0; faults = 0 } }
    {
        MemoryRange {
            bytes,
            most,
            fail,
            calls: 0,
            faults: 0,
        }
    }

    /// How many calls failed; at 2^64 - 1 the count stays.
    pub fn faults(&self) -> u64
        ensures { result ≡ self.now.faults }
    {
        self.faults
    }
}

impl Ranged for MemoryRange {
    ghost bytes = { λ s. Some s.bytes };

    ghost faults = { λ s. s.faults };

    fn read_at(&mut self, place: u64, into: &mut [u8]) -> Result<usize, RangeFailed>
        ensures bound { IfOk result (λ n. n ≤ length into.old) }
        ensures told { AreBytes self.old.bytes }
        ensures same { Some self.new.bytes ≡ Some self.old.bytes }
        ensures read { ReadsAt (Some self.old.bytes) place into.new result }
        ensures cause { HasCause self.old.faults self.new.faults result }
        ensures quiet { IfOk result (λ _. self.new.faults ≡ self.old.faults) }
        ensures fails { IsErr result ↔ IsTrue (read_fails self.old) }
        ensures failure { IfErr result (λ _. self.new ≡ record self.old { calls = one_more self.old.calls; faults = one_more self.old.faults }) }
        ensures count { IfOk result (λ n. n ≡ min self.old.most (min (length into.old) (length self.old.bytes - place))) }
        ensures called { IfOk result (λ _. self.new ≡ record self.old { calls = one_more self.old.calls }) }
    {
        self.calls = self.calls.saturating_add(1);
        if self.fail.contains(&self.calls) {
            self.faults = self.faults.saturating_add(1);
            return Err(RangeFailed);
        }
        let start = place.min(self.bytes.len() as u64) as usize;
        let n = self.most.min(into.len().min(self.bytes.len() - start));
        copy_front(into, &self.bytes[start..start + n]);
        Ok(n)
    }
}

/// Copies a piece to the front of a buffer.
fn copy_front(into: &mut [u8], piece: &[u8])
    requires { length piece.now ≤ length into.old }
    ensures { into.new ≡ piece.now ++ drop (length piece.now) into.old }
{
    into[..piece.len()].copy_from_slice(piece);
}
