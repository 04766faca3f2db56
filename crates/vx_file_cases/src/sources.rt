// The sources of rows.
ghost use Rattle.std.specs.Prelude.{◌<◌, ◌^◌, ◌-◌, All, IfOk};

use crate::errors::CaseError;
use crate::rows::{bytes_in, number_in};
use serde_json::Value;
use std::alloc::Global;
use vx_dtype::Mem;
use vx_file_ranges::MemoryRange;

/// How many bytes a call gives at most, whatever a row says: more than any row has.
const MOST: usize = 1_000_000;

/// The source of a row: its bytes, of which a call gives at most so many, and which fails at the call of a number, from 1, or at none where this is 0.
pub(crate) fn source_in(alloc: Global, row: &Value, fails: u32) -> Result<MemoryRange, CaseError> {
    let most = (number_in(row, "most") as usize).clamp(1, MOST);
    let bytes = bytes_in(alloc, row, "bytes")?;
    Ok(MemoryRange::new(bytes, most, numbers_of(alloc, fails)?))
}

/// The number of the call that fails, where there is one.
fn numbers_of(alloc: Global, fails: u32) -> Mem<Vec<u64>>
    ensures { IfOk result (λ numbers. All (λ n. n < 2 ^ 64 - 1) numbers.items) }
{
    if fails == 0 {
        return Ok(Vec::new(alloc));
    }
    Ok(vec![in alloc; fails as u64]?)
}
