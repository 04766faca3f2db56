// Bitmaps: a bit for each place, eight a byte, the least bit first.
ghost use Rattle.std.specs.Prelude.{◌≡◌, ◌*◌, ◌<◌, ◌≤◌, length, IfOk};
ghost use Rattle.vx_arrays.specs.Arrays.{has_bits};
ghost use Rattle.vx_arrays.specs.Bitmaps.{bit_at, byte_of, byte_at, bitmap_of};

use std::alloc::Global;
use vx_dtype::Mem;

/// How many places a byte has.
const PLACES: usize = 8;

/// Whether a bitmap has a bit for each of so many rows.
pub(crate) fn has_bits(bitmap: &[u8], rows: usize) -> bool
    ensures { result ≡ has_bits bitmap.now rows }
{
    rows.div_ceil(PLACES) <= bitmap.len()
}

/// The bit at a place: bit i % 8 of byte i / 8, counted from the least; 0 past the last byte.
#[inline(always)]
pub(crate) fn bit_at(bitmap: &[u8], i: usize) -> bool
    ensures { result ≡ bit_at bitmap.now i }
{
    if i / PLACES >= bitmap.len() {
        return false;
    }
    (bitmap[i / PLACES] >> (i % PLACES)) & 1 == 1
}

/// The truths as a bitmap, least bit first: eight a byte, and the bits behind the last are 0.
pub fn bitmap(alloc: Global, flags: &[bool]) -> Mem<Vec<u8>>
    ensures { IfOk result (λ bytes. bytes.items ≡ bitmap_of flags.now) }
{
    let count = flags.len().div_ceil(PLACES);
    let mut bytes = Vec::with_capacity(alloc, count)?;
    for k in 0..count {
        bytes.push(byte_at(flags, k))?;
    }
    Ok(bytes)
}

/// The byte at a place of the bitmap of truths.
fn byte_at(flags: &[bool], k: usize) -> u8
    requires { 8 * k < length flags.now }
    ensures { result ≡ byte_at flags.now k }
{
    let (_, rest) = flags.split_at(PLACES * k);
    if rest.len() <= PLACES {
        return byte_of(rest);
    }
    let (eight, _) = rest.split_at(PLACES);
    byte_of(eight)
}

/// The byte whose bits are these truths, the first in the least bit.
fn byte_of(flags: &[bool]) -> u8
    requires { length flags.now ≤ 8 }
    ensures { result ≡ byte_of flags.now }
{
    let mut byte = 0;
    let mut left = flags.len();
    while left > 0 {
        left -= 1;
        byte = u8::from(flags[left]) + 2 * byte;
    }
    byte
}
