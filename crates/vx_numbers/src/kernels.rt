// Comparisons of the values of lanes, 64 places a word.
ghost use Rattle.std.specs.Prelude.{◌≡◌, ℕ, ◌+◌, ◌*◌, ◌<◌, ◌≤◌, ◌&&◌, nat_lt, length, map, IfOk};
ghost use Rattle.vx_words.specs.Words.{word_bit, bit_of};
ghost use Rattle.vx_words.specs.Truths.{words_for};
ghost use Rattle.vx_numbers.specs.Lanes.{AreBits, holds_at, holds_with};

use crate::operators::Operator;
use crate::width::Width;
use std::alloc::Global;
use vx_dtype::Mem;
use vx_words::PLACES;

/// Of up to 64 places, where the comparison is true: the least bit is that of the first.
#[inline(always)]
fn word<T: Width, O: Operator>(left: &[T], right: &[T]) -> u64
    requires few { length left.now ≤ 64 }
    requires as_many { length right.now ≡ length left.now }
    ensures { (j : ℕ) → word_bit result j
        ≡ (nat_lt j (length left.now) && holds_at O.operator (map T.value left.now) (map T.value right.now) j) }
{
    let mut word = 0;
    'places: for j in 0..left.len() {
        word |= u64::from(O::holds(left[j], right[j])) << j;
    }
    word
}

/// Of up to 64 places, where the comparison with one number is true: the least bit is that of the first.
#[inline(always)]
fn word_with<T: Width, O: Operator>(left: &[T], right: T) -> u64
    requires few { length left.now ≤ 64 }
    ensures { (j : ℕ) → word_bit result j
        ≡ (nat_lt j (length left.now) && holds_with O.operator (map T.value left.now) (T.value right) j) }
{
    let mut word = 0;
    'places: for j in 0..left.len() {
        word |= u64::from(O::holds(left[j], right)) << j;
    }
    word
}

/// Where the comparison is true of the values of two lanes, of the places whose bit is set.
pub(crate) fn words<T: Width, O: Operator>(
    alloc: Global,
    known: &[u64],
    left: &[T],
    right: &[T],
) -> Mem<Vec<u64>>
    requires known { length known.now ≡ words_for (length left.now) }
    requires as_many { length right.now ≡ length left.now }
    ensures { IfOk result (λ words. AreBits words.items (length left.now)
        (λ i. holds_at O.operator (map T.value left.now) (map T.value right.now) i && bit_of known.now i)) }
{
    let full = left.len() / PLACES;
    let mut words = Vec::with_capacity(alloc, known.len())?;
    'full: for k in 0..full {
        let from = k * PLACES;
        let to = from + PLACES;
        words.push(word::<T, O>(&left[from..to], &right[from..to]) & known[k])?;
    }
    let from = full * PLACES;
    if from == left.len() {
        return Ok(words);
    }
    words.push(word::<T, O>(&left[from..], &right[from..]) & known[full])?;
    Ok(words)
}

/// Where the comparison with one number is true of the values of a lane, of the places whose bit is set.
pub(crate) fn words_with<T: Width, O: Operator>(
    alloc: Global,
    known: &[u64],
    left: &[T],
    right: T,
) -> Mem<Vec<u64>>
    requires { length known.now ≡ words_for (length left.now) }
    ensures { IfOk result (λ words. AreBits words.items (length left.now)
        (λ i. holds_with O.operator (map T.value left.now) (T.value right) i && bit_of known.now i)) }
{
    let full = left.len() / PLACES;
    let mut words = Vec::with_capacity(alloc, known.len())?;
    'full: for k in 0..full {
        let from = k * PLACES;
        words.push(word_with::<T, O>(&left[from..from + PLACES], right) & known[k])?;
    }
    let from = full * PLACES;
    if from == left.len() {
        return Ok(words);
    }
    words.push(word_with::<T, O>(&left[from..], right) & known[full])?;
    Ok(words)
}
