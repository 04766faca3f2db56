// What a call tells a caller that has no enum.
ghost use Rattle.std.specs.Prelude.{◌≡◌, Err};
ghost use Rattle.vx_calls.specs.Answers.{Tells, answer_told, told_bytes, without_memory};

use crate::errors::{CallError, NO_MEMORY};
use std::alloc::Global;

/// What a call tells: a status, and bytes.
#[derive(Debug, Drop)]
pub struct Answer {
    /// 0 where the call has an answer, else the status of its refusal.
    pub status: u8,
    /// The bytes of the answer, or the line of the refusal; none where there was no memory.
    pub bytes: Vec<u8>,
}

/// That there was no memory.
fn without_memory(alloc: Global) -> Answer
    ensures { answer_told result ≡ without_memory }
{
    Answer {
        status: NO_MEMORY,
        bytes: Vec::new(alloc),
    }
}

/// The line of a refusal, with its status.
fn refused(alloc: Global, error: &CallError) -> Answer
    ensures { Tells (Err error.now) (answer_told result) }
{
    if let CallError::NoMemory = error {
        return without_memory(alloc);
    }
    match Vec::from_slice(alloc, error.line().as_bytes()) {
        Ok(bytes) => Answer {
            status: error.status(),
            bytes,
        },
        Err(_no_memory) => without_memory(alloc),
    }
}

/// What is told of the answer of a call: the status 0 and its bytes, or the status and the line of its refusal. Where there was no memory, also for that
/// line, the status 8 and no bytes.
pub fn answer_of(alloc: Global, called: Result<Vec<u8>, CallError>) -> Answer
    ensures { Tells (told_bytes called) (answer_told result) }
{
    match called {
        Ok(bytes) => Answer { status: 0, bytes },
        Err(error) => refused(alloc, &error),
    }
}
