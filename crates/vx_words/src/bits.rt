// Single bits of lists of words, and words for a number of places.
ghost use Rattle.std.specs.Prelude.{◌≡◌, ℕ, ◌+◌, ◌-◌, ◌*◌, ◌^◌, ◌<◌, ◌≤◌, ◌==◌, ◌&&◌, ◌||◌, not, false, nat_lt, length, replicate, count_by, OnErr, IfOk};
ghost use Rattle.std.specs.List.{range_with_len};
ghost use Rattle.vx_words.specs.Words.{bit_of, IsNextPlace};
ghost use Rattle.vx_words.specs.Truths.{words_for};

use std::alloc::Global;
use vx_dtype::Mem;

/// How many places a word has.
pub const PLACES: usize = 64;

/// The bit at a place: bit i % 64 of word i / 64, counted from the least.
pub fn bit(words: &[u64], i: usize) -> bool
    requires { i < 64 * length words.now }
    ensures { result ≡ bit_of words.now i }
{
    (words[i / PLACES] >> (i % PLACES)) & 1 == 1
}

/// The first place from one on whose bit is set. There are no more words than a place can be counted in.
pub(crate) fn next_bit(words: &[u64], from: usize) -> Option<usize>
    requires within { from < 64 * length words.now }
    requires counted { length words.now ≤ 2 ^ 58 }
    ensures { IsNextPlace (bit_of words.now) (64 * length words.now) from result }
{
    let first = from / PLACES;
    let rest = words[first] >> (from % PLACES);
    if rest != 0 {
        return Some(from + rest.trailing_zeros() as usize);
    }
    'words: for k in first + 1..words.len() {
        if words[k] != 0 {
            return Some(k * PLACES + words[k].trailing_zeros() as usize);
        }
    }
    None
}

/// How many bits are set, where these can be counted.
pub fn bit_count(words: &[u64]) -> usize
    requires { count_by (bit_of words.now) (range_with_len 0 (64 * length words.now)) < 2 ^ 64 }
    ensures { result ≡ count_by (bit_of words.now) (range_with_len 0 (64 * length words.now)) }
{
    let mut count = 0;
    'words: for word in words {
        count += word.count_ones() as usize;
    }
    count
}

/// Sets the bit at a place, if it is to be.
pub(crate) fn set_bit(words: &mut [u64], i: usize, bit: bool)
    requires { i < 64 * length words.old }
    ensures lengths { length words.new ≡ length words.old }
    ensures bits { (j : ℕ) → bit_of words.new j ≡ ((j == i && bit) || bit_of words.old j) }
{
    if !bit {
        return;
    }
    words[i / PLACES] |= 1u64 << (i % PLACES);
}

/// Makes room for one place more than the first `len`, with no bit set.
pub(crate) fn make_room(words: &mut Vec<u64>, len: usize) -> Mem<()>
    requires { length words.old.items ≡ words_for len }
    ensures lengths { IfOk result (λ _. length words.new.items ≡ words_for (len + 1)) }
    ensures bits { IfOk result (λ _. (j : ℕ) → bit_of words.new.items j ≡ bit_of words.old.items j) }
    ensures kept { OnErr result (words.new.items ≡ words.old.items) }
{
    if len % PLACES > 0 {
        return Ok(());
    }
    words.push(0)?;
    Ok(())
}

/// Makes room for one place more than the first `len`, and sets its bit, if it is to be. Where memory runs out the words are as they were.
pub fn push_bit(words: &mut Vec<u64>, len: usize, bit: bool) -> Mem<()>
    requires { length words.old.items ≡ words_for len }
    ensures lengths { IfOk result (λ _. length words.new.items ≡ words_for (len + 1)) }
    ensures bits { IfOk result (λ _. (j : ℕ) → bit_of words.new.items j ≡ ((j == len && bit) || bit_of words.old.items j)) }
    ensures kept { OnErr result (words.new.items ≡ words.old.items) }
{
    make_room(words, len)?;
    set_bit(words, len, bit);
    Ok(())
}

/// The bits that are set in both lists, one as long as the other.
pub fn both(alloc: Global, left: &[u64], right: &[u64]) -> Mem<Vec<u64>>
    requires { length right.now ≡ length left.now }
    ensures lengths { IfOk result (λ words. length words.items ≡ length left.now) }
    ensures bits { IfOk result (λ words. (i : ℕ) → bit_of words.items i ≡ (bit_of left.now i && bit_of right.now i)) }
{
    let mut words = Vec::with_capacity(alloc, left.len())?;
    'each: for k in 0..left.len() {
        words.push(left[k] & right[k])?;
    }
    Ok(words)
}

/// The bits that are set in the first list and not in the second, which is as long.
pub fn without(alloc: Global, left: &[u64], right: &[u64]) -> Mem<Vec<u64>>
    requires { length right.now ≡ length left.now }
    ensures lengths { IfOk result (λ words. length words.items ≡ length left.now) }
    ensures bits { IfOk result (λ words. (i : ℕ) → bit_of words.items i ≡ (bit_of left.now i && not (bit_of right.now i))) }
{
    let mut words = Vec::with_capacity(alloc, left.len())?;
    'each: for k in 0..left.len() {
        words.push(left[k] & !right[k])?;
    }
    Ok(words)
}

/// Words with the bits of the first `len` places set.
pub(crate) fn ones(alloc: Global, len: usize) -> Mem<Vec<u64>>
    ensures lengths { IfOk result (λ words. length words.items ≡ words_for len) }
    ensures bits { IfOk result (λ words. (j : ℕ) → bit_of words.items j ≡ nat_lt j len) }
{
    let mut words = full_words(alloc, len.div_ceil(PLACES))?;
    let rest = len % PLACES;
    if rest == 0 {
        return Ok(words);
    }
    words[len / PLACES] = (1u64 << rest) - 1;
    Ok(words)
}

/// So many words with all bits set.
fn full_words(alloc: Global, count: usize) -> Mem<Vec<u64>>
    ensures { IfOk result (λ words. words.items ≡ replicate count (2 ^ 64 - 1)) }
{
    Ok(Vec::from_elem(alloc, u64::MAX, count)?)
}

/// Words with no bit set, as many as this many places need.
pub(crate) fn zeros(alloc: Global, len: usize) -> Mem<Vec<u64>>
    ensures lengths { IfOk result (λ words. length words.items ≡ words_for len) }
    ensures bits { IfOk result (λ words. (j : ℕ) → bit_of words.items j ≡ false) }
{
    Ok(Vec::from_elem(alloc, 0u64, len.div_ceil(PLACES))?)
}

/// Words with this bit at the first `len` places.
pub fn repeated_bit(alloc: Global, bit: bool, len: usize) -> Mem<Vec<u64>>
    ensures lengths { IfOk result (λ words. length words.items ≡ words_for len) }
    ensures bits { IfOk result (λ words. (j : ℕ) → bit_of words.items j ≡ (bit && nat_lt j len)) }
{
    if bit {
        return ones(alloc, len);
    }
    zeros(alloc, len)
}
