// Pieces of a source, and whether it has a byte at a place.
use crate::errors::CaseError;
use crate::rows::{number_in, text_in};
use crate::sources::source_in;
use serde_json::Value;
use std::alloc::Global;
use vx_dtype::Mem;
use vx_file_ranges::{MemoryRange, PieceError, RangeFailed, has_byte_at, read_piece};

/// The answer to the call of a row, and how many faults the source counted.
pub(crate) fn answer(alloc: Global, row: &Value) -> Result<String, CaseError> {
    let mut source = source_in(alloc, row, number_in(row, "fails"))?;
    let told = told_of(alloc, row, &mut source)?;
    Ok(format!(in alloc; "{told}, faults {}", source.faults())?)
}

/// What the call of a row tells of a source.
fn told_of(alloc: Global, row: &Value, source: &mut MemoryRange) -> Mem<String> {
    let place = number_in(row, "place");
    match text_in(row, "call") {
        "byte" => byte_text(alloc, has_byte_at(source, place as u64)),
        _ => piece(alloc, source, place, number_in(row, "count")),
    }
}

/// A piece of a source.
fn piece(alloc: Global, source: &mut MemoryRange, place: u32, count: u32) -> Mem<String> {
    piece_text(
        alloc,
        read_piece(alloc, source, place as u64, count as usize),
    )
}

/// The digits of a piece, or why it isn't read.
fn piece_text(alloc: Global, piece: Result<Vec<u8>, PieceError>) -> Mem<String> {
    match piece {
        Ok(bytes) => Ok(hex::encode(alloc, bytes.as_slice())?),
        Err(error) => Ok(format!(in alloc; "{error:?}")?),
    }
}

/// Whether there is a byte, or that the read failed.
fn byte_text(alloc: Global, found: Result<bool, RangeFailed>) -> Mem<String> {
    match found {
        Ok(found) => Ok(format!(in alloc; "{found}")?),
        Err(error) => Ok(format!(in alloc; "{error:?}")?),
    }
}
