// Truths at places that are counted from 0, kept as words of bits.
ghost use Rattle.std.specs.Prelude.{◌≡◌, ℕ, ◌+◌, ◌*◌, ◌<◌, Option, Some, None, [], ◌∷◌, ◌++◌, length, map, replicate, slice_index_or, count_by, IfOk, Decides};
ghost use Rattle.std.specs.Cmp.{partial_equiv_from_equiv};
ghost use Rattle.std.specs.Simd.Lanes.{zip2};
ghost use Rattle.vx_dtype.specs.Logic.{and3, or3, not3, is_null3};
ghost use Rattle.vx_words.specs.Words.{truth_of_words, HaveSameBits, IsNextPlace};
ghost use Rattle.vx_words.specs.Connectives.{connected3};
ghost use Rattle.vx_words.specs.Truths.{AreTidy, truths_of_words, vals_of, is_true, true_at, hidden_if, kept_items};
ghost use Rattle.vx_words.specs.TruthsEqual.{truths_eq, truths_eq_equiv};

use crate::bits::{PLACES, bit, bit_count, next_bit, ones, push_bit, repeated_bit, without, zeros};
use crate::logic::{Connective, connect_words, not_words};
use std::alloc::{AllocError, Global};
use std::marker::Model;
use vx_dtype::Mem;

/// A list of truths, each true, false or null.
#[derive(Debug, Drop)]
pub struct Truths {
    len: usize,
    valid: Vec<u64>,
    values: Vec<u64>,
}

impl Model for Truths {
    ghost use Rattle.std.specs.Prelude.{Bool, Option, List};
    ghost use Rattle.vx_words.specs.Truths.{AreTidy, truths_of_words};

    ghost Value = { List (Option Bool) };

    ghost view = { λ t. truths_of_words t.valid.items t.values.items t.len };

    ghost invariant = { λ t. AreTidy t.len t.valid.items t.values.items };
}

impl Truths {
    /// The list of these truths.
    pub fn from_options(alloc: Global, options: &[Option<bool>]) -> Mem<Truths>
        ensures { IfOk result (λ truths. truths ≡ options.now) }
    {
        let mut valid = Vec::new(alloc);
        let mut values = Vec::new(alloc);
        for i in 0..options.len() {
            push_truth(&mut valid, &mut values, i, options[i])?;
        }
        Ok(Truths::of_words(options.len(), valid, values))
    }

    /// The list of one truth, this many times.
    pub fn repeated(alloc: Global, truth: Option<bool>, len: usize) -> Mem<Truths>
        ensures { IfOk result (λ truths. truths ≡ replicate len truth) }
    {
        let valid = repeated_bit(alloc, truth.is_some(), len)?;
        let values = repeated_bit(alloc, truth.unwrap_or(false), len)?;
        Ok(Truths::of_words(len, valid, values))
    }

    /// The first `len` truths of two lists of words. Bit i % 64 of word i / 64, counted from the least, stands for place i: in `valid` whether there
    /// is a truth, in `values` whether it is true. Each list has as many words as the places need, and no bit is set past them, nor in `values`
    /// where there is no truth.
    pub fn of_words(len: usize, valid: Vec<u64>, values: Vec<u64>) -> Truths
        requires { AreTidy len valid.items values.items }
        ensures { result ≡ truths_of_words valid.items values.items len }
    {
        Truths { len, valid, values }
    }

    /// The words of validity and those of the values: bit i % 64 of word i / 64, counted from the least, says of place i whether there is a truth,
    /// and whether it is true.
    pub fn words(&self) -> (&[u64], &[u64])
        ensures truths { truths_of_words result.0.now result.1.now (length self.now) ≡ self.now }
        ensures tidy { AreTidy (length self.now) result.0.now result.1.now }
    {
        (self.valid.as_slice(), self.values.as_slice())
    }

    /// How many truths there are.
    pub fn len(&self) -> usize
        ensures { result ≡ length self.now }
    {
        self.len
    }

    /// The truth at a place, counted from 0.
    pub fn truth_at(&self, i: usize) -> Option<bool>
        requires { i < length self.now }
        ensures { result ≡ slice_index_or self.now i None }
    {
        let (valid, values) = self.words();
        truth_in(valid, values, i)
    }

    /// Whether both sides hold, place by place, by Kleene's logic: false beside anything is false, true beside true is true, all else is null.
    pub fn and(&self, alloc: Global, other: &Truths) -> Mem<Truths>
        requires { length other.now ≡ length self.now }
        ensures { IfOk result (λ truths. vals_of truths ≡ zip2 and3 (vals_of self.now) (vals_of other.now)) }
    {
        connected(alloc, Connective::And, self, other)
    }

    /// Whether one side holds, place by place, by Kleene's logic: true beside anything is true, false beside false is false, all else is null.
    pub fn or(&self, alloc: Global, other: &Truths) -> Mem<Truths>
        requires { length other.now ≡ length self.now }
        ensures { IfOk result (λ truths. vals_of truths ≡ zip2 or3 (vals_of self.now) (vals_of other.now)) }
    {
        connected(alloc, Connective::Or, self, other)
    }

    /// True and false exchanged, place by place; null stays.
    pub fn not(&self, alloc: Global) -> Mem<Truths>
        ensures { IfOk result (λ truths. vals_of truths ≡ map not3 (vals_of self.now)) }
    {
        let (v, b) = self.words();
        let mut valid = zeros(alloc, self.len())?;
        let mut values = zeros(alloc, self.len())?;
        not_words(v, b, &mut valid, &mut values);
        Ok(Truths::of_words(self.len(), valid, values))
    }

    /// Whether there is no truth, place by place: true for null, false for any other.
    pub fn is_null(&self, alloc: Global) -> Mem<Truths>
        ensures { IfOk result (λ truths. vals_of truths ≡ map is_null3 (vals_of self.now)) }
    {
        let (valid, _) = self.words();
        let known = ones(alloc, self.len())?;
        let are_known = Vec::from_slice(alloc, valid)?;
        Truths::of_words(self.len(), known, are_known).not(alloc)
    }

    /// The first place from `from` on, counted from 0, at which the truth is true; none where there is no such place.
    pub fn next_true(&self, from: usize) -> Option<usize>
        ensures { IsNextPlace (true_at self.now) (length self.now) from result }
    {
        if from >= self.len {
            return None;
        }
        next_bit(self.values.as_slice(), from)
    }

    /// How many of the truths are true.
    pub fn true_count(&self) -> usize
        ensures { result ≡ count_by is_true self.now }
    {
        let places = self.len;
        let count = bit_count(self.values.as_slice());
        prove!(count <= places);
        count
    }

    /// The truths, null where the other list is true.
    pub fn mask(&self, alloc: Global, nulls: &Truths) -> Mem<Truths>
        requires { length nulls.now ≡ length self.now }
        ensures { IfOk result (λ truths. truths ≡ zip2 hidden_if self.now nulls.now) }
    {
        let (valid, values) = self.words();
        let (_, hidden) = nulls.words();
        let known = without(alloc, valid, hidden)?;
        let made = without(alloc, values, hidden)?;
        Ok(Truths::of_words(self.len(), known, made))
    }

    /// The truths at the places where the other list is true, in order.
    pub fn filter(&self, alloc: Global, keep: &Truths) -> Mem<Truths>
        requires { length keep.now ≡ length self.now }
        ensures { IfOk result (λ truths. truths ≡ kept_items self.now keep.now) }
    {
        let mut valid = Vec::new(alloc);
        let mut values = Vec::new(alloc);
        let mut len = 0;
        let mut from = 0;
        let places = keep.len();
        'kept: while let Some(i) = keep.next_true(from) {
            prove!(i < places);
            push_truth(&mut valid, &mut values, len, self.truth_at(i))?;
            len += 1;
            from = i + 1;
        }
        Ok(Truths::of_words(len, valid, values))
    }

    /// The items of a list, one for each truth, at the places where the truth is true, in order.
    pub fn kept<T: Copy>(&self, alloc: Global, items: &[T]) -> Mem<Vec<T>>
        requires { length items.now ≡ length self.now }
        ensures { IfOk result (λ kept. kept.items ≡ kept_items items.now self.now) }
    {
        let (_, truths) = self.words();
        let mut kept = Vec::with_capacity(alloc, self.true_count())?;
        'words: for k in 0..truths.len() {
            let mut word = truths[k];
            'bits: while word != 0 {
                let place = word.trailing_zeros();
                kept.push(items[k * PLACES + place as usize])?;
                word &= !(1u64 << place);
            }
        }
        Ok(kept)
    }
}

impl Clone for Truths {
    ghost is_clone = { λ truths copy. copy ≡ truths };

    fn clone(&self) -> Result<Truths, AllocError> {
        Ok(Truths {
            len: self.len,
            valid: self.valid.clone()?,
            values: self.values.clone()?,
        })
    }
}

impl PartialEq for Truths {
    ghost eq = { truths_eq };

    ghost laws = { partial_equiv_from_equiv truths_eq_equiv };

    fn eq(&self, other: &Truths) -> bool
        ensures gives { result ≡ truths_eq self.now other.now }
        ensures same { Decides result (self.now ≡ other.now) }
    {
        same_truths(self, other)
    }
}

impl Eq for Truths {
    ghost laws = { truths_eq_equiv };
}

/// The truths of two lists connected, place by place.
#[inline(always)]
fn connected(alloc: Global, connective: Connective, left: &Truths, right: &Truths) -> Mem<Truths>
    requires { length right.now ≡ length left.now }
    ensures { IfOk result (λ truths. vals_of truths ≡ zip2 (connected3 connective) (vals_of left.now) (vals_of right.now)) }
{
    let (lv, lb) = left.words();
    let (rv, rb) = right.words();
    let mut valid = zeros(alloc, left.len())?;
    let mut values = zeros(alloc, left.len())?;
    connect_words(connective, lv, lb, rv, rb, &mut valid, &mut values);
    Ok(Truths::of_words(left.len(), valid, values))
}

/// The truth at a place of words of validity and words of values.
fn truth_in(valid: &[u64], values: &[u64], i: usize) -> Option<bool>
    requires { (i < 64 * length valid.now) × (i < 64 * length values.now) }
    ensures { result ≡ truth_of_words valid.now values.now i }
{
    if !bit(valid, i) {
        return None;
    }
    Some(bit(values, i))
}

/// Adds a truth after the first `len`.
fn push_truth(
    valid: &mut Vec<u64>,
    values: &mut Vec<u64>,
    len: usize,
    truth: Option<bool>,
) -> Mem<()>
    requires { AreTidy len valid.old.items values.old.items }
    ensures tidy { IfOk result (λ _. AreTidy (len + 1) valid.new.items values.new.items) }
    ensures truths { IfOk result (λ _. truths_of_words valid.new.items values.new.items (len + 1)
        ≡ truths_of_words valid.old.items values.old.items len ++ truth ∷ []) }
{
    push_bit(valid, len, truth.is_some())?;
    push_bit(values, len, truth.unwrap_or(false))?;
    Ok(())
}

/// Whether two lists have the same truths.
fn same_truths(l: &Truths, r: &Truths) -> bool
    ensures { Decides result (l.now ≡ r.now) }
{
    if l.len() != r.len() {
        return false;
    }
    let (lv, lb) = l.words();
    let (rv, rb) = r.words();
    if !same_bits(lv, rv) {
        return false;
    }
    same_bits(lb, rb)
}

/// Whether two lists of words, one as long as the other, have the same bits.
fn same_bits(l: &[u64], r: &[u64]) -> bool
    requires { length r.now ≡ length l.now }
    ensures { Decides result (HaveSameBits l.now r.now) }
{
    'words: for k in 0..l.len() {
        if l[k] != r[k] {
            return false;
        }
    }
    true
}
