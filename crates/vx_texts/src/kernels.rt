// The answers of a test at the places of a list, 64 places a word.
ghost use Rattle.std.specs.Prelude.{◌≡◌, ℕ, ◌+◌, ◌^◌, ◌<◌, ◌≤◌, ◌&&◌, Bool, nat_lt, length, IfOk};
ghost use Rattle.vx_words.specs.Words.{word_bit, bit_of};
ghost use Rattle.vx_words.specs.Truths.{words_for};
ghost use Rattle.vx_texts.specs.Layouts.{AreBits};

use std::alloc::Global;
use vx_dtype::Mem;
use vx_words::PLACES;

/// A test of each place of a list.
pub(crate) trait PlaceTest {
    ghost use Rattle.std.specs.Prelude.{ℕ, Bool};

    /// How many places there are, and the answer at each.
    ghost count: { Self → ℕ };

    ghost answer: { Self → ℕ → Bool };

    /// The answer at a place.
    fn at(&self, i: usize) -> bool
        requires { i < count self.now }
        ensures { result ≡ answer self.now i };
}

/// Of up to 64 places from one on, where the test is true: the least bit is that of the first.
#[inline(always)]
fn word<T: PlaceTest>(test: &T, from: usize, count: usize) -> u64
    requires few { count ≤ 64 }
    requires within { from + count ≤ T.count test.now }
    requires counted { from + count < 2 ^ 64 }
    ensures { (j : ℕ) → word_bit result j ≡ (nat_lt j count && T.answer test.now (from + j)) }
{
    let mut word = 0;
    'places: for j in 0..count {
        word |= u64::from(test.at(from + j)) << j;
    }
    word
}

/// Where the test is true, of the places whose bit is set.
pub(crate) fn words<T: PlaceTest>(
    alloc: Global,
    test: &T,
    known: &[u64],
    len: usize,
) -> Mem<Vec<u64>>
    requires places { len ≡ T.count test.now }
    requires known { length known.now ≡ words_for len }
    ensures { IfOk result (λ words. AreBits words.items len (λ i. T.answer test.now i && bit_of known.now i)) }
{
    let full = len / PLACES;
    let mut words = Vec::with_capacity(alloc, known.len())?;
    'full: for k in 0..full {
        words.push(word(test, k * PLACES, PLACES) & known[k])?;
    }
    let from = full * PLACES;
    if from == len {
        return Ok(words);
    }
    words.push(word(test, from, len - from) & known[full])?;
    Ok(words)
}
