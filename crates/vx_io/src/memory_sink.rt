// A sink into memory, for tests and for callers that want the bytes.
ghost use Rattle.std.specs.Prelude.{◌≡◌, ◌-◌, ◌^◌, ◌<◌, ◌≤◌, ◌++◌, [], length, take, min, Some, IfOk, IfErr, IsErr, IsTrue, ◌↔◌, All};
ghost use Rattle.vx_io.specs.Counts.{one_more};
ghost use Rattle.vx_io.specs.Ends.{HasCause, WritesTo};
ghost use Rattle.vx_io.specs.Listed.{write_fails};

use crate::sinks::{Sink, WriteFailed};
use std::alloc::Global;
use std::marker::Model;
use vx_dtype::Mem;

/// Memory as a sink that takes at most so many bytes a call and so many in all, and fails at the calls whose numbers
/// are listed. Its room is reserved when it is made, so a write takes no memory.
#[derive(Debug, Drop)]
pub struct MemorySink {
    bytes: Vec<u8>,
    room: usize,
    most: usize,
    fail: Vec<u64>,
    calls: u64,
    faults: u64,
}

impl Model for MemorySink {
    ghost use Rattle.std.specs.Prelude.{◌<◌, ◌≤◌, vec_len, vec_capacity};
    ghost use Rattle.vx_io.specs.Listed.{SinkState};

    ghost Value = { SinkState };

    ghost view = { λ s. record { bytes = s.bytes.items; room = s.room; most = s.most; listed = s.fail.items; calls = s.calls; faults = s.faults } };

    ghost invariant = { λ s. (vec_len s.bytes ≤ s.room) × (s.room ≤ vec_capacity s.bytes) × (0 < s.most) };
}

impl MemorySink {
    /// An empty sink with room for `room` bytes that takes at most `most` a call, and fails at the calls whose
    /// numbers, from 1, are listed.
    pub fn new(alloc: Global, room: usize, most: usize, fail: Vec<u64>) -> Mem<MemorySink>
        requires some { 0 < most }
        requires countable { All (λ n. n < 2 ^ 64 - 1) fail.items }
        ensures { IfOk result (λ sink. sink ≡ record { bytes = []; room = room; most = most; listed = fail.items; calls = 0; faults = 0 }) }
    {
        Ok(MemorySink {
            bytes: Vec::with_capacity(alloc, room)?,
            room,
            most,
            fail,
            calls: 0,
            faults: 0,
        })
    }

    /// The bytes that were written.
    pub fn written(&self) -> &[u8]
        ensures { result.now ≡ self.now.bytes }
    {
        self.bytes.as_slice()
    }

    /// How many calls failed; at 2^64 - 1 the count stays.
    pub fn faults(&self) -> u64
        ensures { result ≡ self.now.faults }
    {
        self.faults
    }
}

impl Sink for MemorySink {
    ghost written = { λ s. Some s.bytes };

    ghost faults = { λ s. s.faults };

    fn write(&mut self, piece: &[u8]) -> Result<usize, WriteFailed>
        ensures bound { IfOk result (λ n. n ≤ length piece.now) }
        ensures moves { IfOk result (λ n. 0 < length piece.now → 0 < n) }
        ensures bytes { WritesTo (Some self.old.bytes) (Some self.new.bytes) piece.now result }
        ensures cause { HasCause self.old.faults self.new.faults result }
        ensures fails { IsErr result ↔ IsTrue (write_fails self.old piece.now) }
        ensures failure { IfErr result (λ _. self.new ≡ record self.old { calls = one_more self.old.calls; faults = one_more self.old.faults }) }
        ensures count { IfOk result (λ n. n ≡ min self.old.most (min (length piece.now) (self.old.room - length self.old.bytes))) }
        ensures taken { IfOk result (λ n. self.new ≡ record self.old { bytes = self.old.bytes ++ take n piece.now; calls = one_more self.old.calls }) }
    {
        self.calls = self.calls.saturating_add(1);
        if self.fail.contains(&self.calls) {
            self.faults = self.faults.saturating_add(1);
            return Err(WriteFailed);
        }
        let free = self.room - self.bytes.len();
        if !piece.is_empty() && free == 0 {
            self.faults = self.faults.saturating_add(1);
            return Err(WriteFailed);
        }
        let n = self.most.min(piece.len().min(free));
        self.bytes.extend_from_slice(&piece[..n]).unwrap();
        Ok(n)
    }
}
