// The program over memory.
ghost use Rattle.std.specs.Prelude.{map, IfOk};
ghost use Rattle.std.specs.String.{string_bytes};
ghost use Rattle.vx_query.specs.Running.{form_of};
ghost use Rattle.vx_calls.specs.Answers.{answer_told};
ghost use Rattle.vx_run_calls.specs.MemoryRuns.{IsMemoryRun, IsRunOf};

use crate::sinks::GrowingSink;
use crate::sources::SliceSource;
use crate::words::words_of;
use std::alloc::Global;
use vx_calls::Answer;
use vx_dtype::Mem;
use vx_query::run;

/// Runs the program with these arguments over an input.
fn run_words(alloc: Global, arguments: &[String], input: &[u8]) -> Mem<Answer>
    ensures { IfOk result (λ answer. IsRunOf (form_of (map string_bytes arguments.now)) input.now (answer_told answer)) }
{
    let mut source = SliceSource::new(input);
    let mut sink = GrowingSink::new(alloc);
    let mut used = None;
    let status = run(alloc, arguments, &mut source, &mut sink, &mut used);
    sink.into_answer(status)
}

/// Runs the program: `words` are its arguments, with a byte 0 between any two, and `input` is what it reads. The answer's status is the program's exit status,
/// and its bytes are what it wrote. Words that aren't UTF-8 are wrong arguments.
///
/// The words are those of [`run`](vx_query::run), which says what they do and which exit status comes when. 7 never comes: where there is no memory for what is
/// written, this call refuses.
pub fn run_bytes(alloc: Global, words: &[u8], input: &[u8]) -> Mem<Answer>
    ensures { IfOk result (λ answer. IsMemoryRun words.now input.now (answer_told answer)) }
{
    match str::from_utf8(words) {
        Ok(text) => {
            let arguments = words_of(alloc, text)?;
            run_words(alloc, arguments.as_slice(), input)
        }
        Err(_) => {
            let none: [String; 0] = [];
            run_words(alloc, &none, input)
        }
    }
}
