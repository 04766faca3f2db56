// Which cells of columns are null, and whether a column may have those that are.
ghost use Rattle.std.specs.Prelude.{◌≡◌};
ghost use Rattle.vx_arrays.specs.Arrays.{has_validity, is_valid, may_have};

use crate::bitmaps::{bit_at, has_bits};
use vx_dtype::Nullability;

/// Whether a validity has a bit for each of so many rows, or no bytes.
pub(crate) fn has_validity(validity: &[u8], rows: usize) -> bool
    ensures { result ≡ has_validity validity.now rows }
{
    if validity.is_empty() {
        return true;
    }
    has_bits(validity, rows)
}

/// Whether the cell at a row isn't null.
#[inline(always)]
pub(crate) fn is_valid(validity: &[u8], i: usize) -> bool
    ensures { result ≡ is_valid validity.now i }
{
    if validity.is_empty() {
        return true;
    }
    bit_at(validity, i)
}

/// Whether a column of this nullability may have these cells.
pub(crate) fn may_have<T>(n: Nullability, cells: &[Option<T>]) -> bool
    ensures { result ≡ may_have n cells.now }
{
    if n == Nullability::Nullable {
        return true;
    }
    for cell in cells {
        if cell.is_none() {
            return false;
        }
    }
    true
}
