// Runs of the program by the words of a case, over its request.
use crate::errors::CaseError;
use crate::tables::Case;
use std::alloc::Global;
use vx_dtype::Mem;
use vx_io::{MemorySink, MemorySource};
use vx_query::run;

/// How many bytes an answer may have, and how many a call takes or gives: more than any case has.
const ROOM: usize = 1_000_000;

/// The exit status of a run by the words of a case over its request, and what it writes, in a line: ` / ` stands for the end of each
/// of its lines.
pub(crate) fn run_of(alloc: Global, case: &Case<'_>) -> Result<String, CaseError> {
    let bytes = case.request.as_bytes().to_vec(alloc)?;
    let mut source = MemorySource::new(bytes, ROOM, Vec::new(alloc));
    let mut sink = MemorySink::new(alloc, ROOM, ROOM, Vec::new(alloc))?;
    let mut used = None;
    let status = run(
        alloc,
        case.words.as_slice(),
        &mut source,
        &mut sink,
        &mut used,
    );
    let written = in_a_line(alloc, sink.written())?;
    Ok(format!(in alloc; "{status} {written}")?)
}

/// A text of lines in a line.
fn in_a_line(alloc: Global, text: &[u8]) -> Result<String, CaseError> {
    match std::str::from_utf8(text) {
        Ok(text) => Ok(text.replace(alloc, "\n", " / ")?),
        Err(_) => Err(CaseError::NoText),
    }
}
