// The words that a text is.
ghost use Rattle.std.specs.Prelude.{◌≡◌, map, IfOk};
ghost use Rattle.std.specs.String.{string_bytes};
ghost use Rattle.vx_run_calls.specs.MemoryRuns as spec;

use std::alloc::{AllocError, Global};
use vx_dtype::Mem;

/// Pieces of a text as words.
fn owned(alloc: Global, pieces: &[&str]) -> Mem<Vec<String>>
    ensures { IfOk result (λ words. map string_bytes words.items ≡ map (λ piece. piece.now) pieces.now) }
{
    let mut words = Vec::new(alloc);
    for piece in pieces {
        words.push(String::from_str(alloc, piece)?)?;
    }
    Ok(words)
}

/// The pieces of a text, with a byte 0 between any two.
fn pieces_of(alloc: Global, text: &str) -> Result<Vec<&str>, AllocError>
    ensures { IfOk result (λ pieces. map (λ piece. piece.now) pieces.items ≡ spec.words_of text.now) }
{
    text.split('\0').collect(alloc)
}

/// The words that a text is, with a byte 0 between any two.
pub(crate) fn words_of(alloc: Global, text: &str) -> Mem<Vec<String>>
    ensures { IfOk result (λ words. map string_bytes words.items ≡ spec.words_of text.now) }
{
    let pieces = pieces_of(alloc, text)?;
    owned(alloc, pieces.as_slice())
}
