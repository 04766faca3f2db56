// Memory that grows as a sink.
ghost use Rattle.std.specs.Prelude.{◌≡◌, ◌<◌, ◌≤◌, [], length, Some, IfOk};
ghost use Rattle.vx_calls.specs.Answers.{answer_told};
ghost use Rattle.vx_io.specs.Ends.{HasCause, WritesTo};

use std::alloc::Global;
use vx_calls::Answer;
use vx_dtype::{Mem, NoMemory};
use vx_io::{Sink, WriteFailed};

/// Memory as a sink that takes all of a piece for which there is memory, and else counts a fault.
#[derive(Debug, Drop)]
pub(crate) struct GrowingSink {
    bytes: Vec<u8>,
    faults: u64,
}

impl GrowingSink {
    /// An empty sink.
    pub(crate) fn new(alloc: Global) -> GrowingSink
        ensures bytes { result.bytes.items ≡ [] }
        ensures faults { result.faults ≡ 0 }
    {
        GrowingSink {
            bytes: Vec::new(alloc),
            faults: 0,
        }
    }

    /// An exit status with what was written, where there was memory for all of it.
    pub(crate) fn into_answer(self, status: u8) -> Mem<Answer>
        ensures told { IfOk result (λ answer. answer_told answer ≡ record { status = status; bytes = self.bytes.items }) }
        ensures whole { IfOk result (λ answer. self.faults ≡ 0) }
    {
        let GrowingSink { bytes, faults } = self;
        if faults > 0 {
            return Err(NoMemory);
        }
        Ok(Answer { status, bytes })
    }
}

impl Sink for GrowingSink {
    ghost use Rattle.std.specs.Prelude.{Some};

    ghost written = { λ s. Some s.bytes.items };

    ghost faults = { λ s. s.faults };

    fn write(&mut self, piece: &[u8]) -> Result<usize, WriteFailed>
        ensures bound { IfOk result (λ n. n ≤ length piece.now) }
        ensures moves { IfOk result (λ n. 0 < length piece.now → 0 < n) }
        ensures bytes { WritesTo (Some self.old.bytes.items) (Some self.new.bytes.items) piece.now result }
        ensures cause { HasCause self.old.faults self.new.faults result }
    {
        match self.bytes.extend_from_slice(piece) {
            Ok(()) => Ok(piece.len()),
            Err(_no_memory) => {
                self.faults = self.faults.saturating_add(1);
                Err(WriteFailed)
            }
        }
    }
}
