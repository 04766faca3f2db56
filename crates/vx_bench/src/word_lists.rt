// The kernels of words of bits, their conditions tested.
ghost use Rattle.std.specs.Prelude.{◌≡◌, length, IfOk};

use crate::columns::mixed;
use anyhow::{Result, bail};
use std::alloc::Global;
use vx_dtype::Mem;
use vx_words::{and_words, not_words, or_words};

/// A kernel of words of bits.
#[derive(Clone, Copy)]
pub(crate) enum Logic {
    /// The conjunction.
    And,
    /// The disjunction.
    Or,
    /// The negation of the left side.
    Not,
}

/// Truths: the words of their validity, and those of their values.
#[derive(Drop)]
struct TruthWords {
    valid: Vec<u64>,
    values: Vec<u64>,
}

impl TruthWords {
    /// Truths at so many places, 64 in a word: those from a place on.
    fn new(alloc: Global, rows: usize, from: usize) -> Mem<TruthWords> {
        let count = rows.div_ceil(64);
        Ok(TruthWords {
            valid: words(alloc, count, from)?,
            values: words(alloc, count, from.wrapping_add(count))?,
        })
    }

    /// Tests that there are so many words of each kind.
    fn have_length(&self, len: usize) -> Result<()>
        ensures valid { IfOk result (λ _. length self.now.valid.items ≡ len) }
        ensures values { IfOk result (λ _. length self.now.values.items ≡ len) }
    {
        if self.valid.len() != len {
            bail!("other words of validity")
        }
        if self.values.len() != len {
            bail!("other words of values")
        }
        Ok(())
    }

    /// At how many places a truth has the bit of true.
    fn true_count(&self) -> u64 {
        let mut count = 0u64;
        for word in &self.values {
            count = count.wrapping_add(u64::from(word.count_ones()));
        }
        count
    }
}

/// Truths of two sides, and those that a kernel makes of them.
#[derive(Drop)]
pub(crate) struct Sides {
    left: TruthWords,
    right: TruthWords,
    made: TruthWords,
}

impl Sides {
    /// Truths at so many places.
    pub(crate) fn new(alloc: Global, rows: usize) -> Mem<Sides> {
        Ok(Sides {
            left: TruthWords::new(alloc, rows, 0)?,
            right: TruthWords::new(alloc, rows, rows)?,
            made: TruthWords::new(alloc, rows, 0)?,
        })
    }

    /// Makes what a kernel answers.
    pub(crate) fn make(&mut self, logic: Logic) -> Result<()> {
        write_answer(logic, &self.left, &self.right, &mut self.made)
    }

    /// At how many places what was made has the bit of true.
    pub(crate) fn true_count(&self) -> u64 {
        self.made.true_count()
    }
}

/// So many words of bits.
fn words(alloc: Global, count: usize, from: usize) -> Mem<Vec<u64>> {
    let mut words = Vec::with_capacity(alloc, count)?;
    for k in 0..count {
        words.push(mixed(from.wrapping_add(k)))?;
    }
    Ok(words)
}

/// Writes what a kernel answers.
fn write_answer(logic: Logic, l: &TruthWords, r: &TruthWords, out: &mut TruthWords) -> Result<()> {
    let len = l.valid.len();
    l.have_length(len)?;
    r.have_length(len)?;
    out.have_length(len)?;
    let (lv, lb) = (l.valid.as_slice(), l.values.as_slice());
    let (rv, rb) = (r.valid.as_slice(), r.values.as_slice());
    match logic {
        Logic::And => and_words(lv, lb, rv, rb, &mut out.valid, &mut out.values),
        Logic::Or => or_words(lv, lb, rv, rb, &mut out.valid, &mut out.values),
        Logic::Not => not_words(lv, lb, &mut out.valid, &mut out.values),
    }
    Ok(())
}
