// What is told of a run of the program.
ghost use Rattle.vx_calls.specs.Answers.{answer_told};
ghost use Rattle.vx_c.specs.Giving.{TellsRun};

use std::alloc::Global;
use vx_calls::{Answer, NO_MEMORY};
use vx_dtype::NoMemory;
use vx_run_calls::run_bytes;

/// Runs the program with the words of some bytes over an input. Where there was no memory, the status 8 and no bytes.
pub(crate) fn told_run(alloc: Global, words: &[u8], input: &[u8]) -> Answer
    ensures { TellsRun words.now input.now (answer_told result) }
{
    match run_bytes(alloc, words, input) {
        Ok(told) => told,
        Err(NoMemory) => Answer {
            status: NO_MEMORY,
            bytes: Vec::new(alloc),
        },
    }
}
