// Texts at places that are counted from 0, and those of them that are null.
ghost use Rattle.std.specs.Prelude.{◌≡◌, ◌+◌, ◌^◌, ◌<◌, Some, None, length, map, slice_index_or, is_none, option_copied, IfOk, Decides};
ghost use Rattle.std.specs.List.{filter};
ghost use Rattle.std.specs.Cmp.{partial_equiv_from_equiv};
ghost use Rattle.std.specs.Simd.Lanes.{zip2};
ghost use Rattle.vx_words.specs.Truths.{hidden_if, kept_items};
ghost use Rattle.vx_texts.specs.Texts.{byte_count, byte_total, FitOneBuffer, compared, null_test};
ghost use Rattle.vx_texts.specs.Bounds.{least_text, greatest_text};
ghost use Rattle.vx_texts.specs.Layouts.{texts_of, AreTidyTexts};
ghost use Rattle.vx_texts.specs.Refusals.{TakesFitting};
ghost use Rattle.vx_texts.specs.TextsEqual.{text_eq, texts_eq, texts_eq_equiv};

use crate::bounds::{greater, lesser};
use crate::buffer::TextBuffer;
use crate::builder::TextsBuilder;
use crate::comparing::{pair_words, words_against};
use crate::errors::TextsError;
use std::alloc::{AllocError, Global};
use std::marker::Model;
use std::rc::Rc;
use vx_dtype::{CompareOperator, Mem};
use vx_words::{Truths, bit, bit_count, both, without};

/// A list of texts, null at some places. The bytes are shared by clones and by lists that differ in their nulls alone.
#[derive(Debug, Drop)]
pub struct Texts {
    valid: Vec<u64>,
    values: Rc<TextBuffer>,
}

impl Model for Texts {
    ghost use Rattle.std.specs.Prelude.{ℕ, Option, List};
    ghost use Rattle.vx_texts.specs.Layouts.{texts_of, AreTidyTexts};

    ghost Value = { List (Option (List ℕ)) };

    ghost view = { λ t. texts_of t.valid.items t.values.value };

    ghost invariant = { λ t. AreTidyTexts t.valid.items t.values.value };
}

impl Texts {
    /// The list of these texts. TooLong exactly where they have 2^32 bytes together, or more.
    pub fn from_options(alloc: Global, options: &[Option<&str>]) -> Result<Texts, TextsError>
        ensures texts { IfOk result (λ texts. texts ≡ map option_copied options.now) }
        ensures fitting { TakesFitting (map option_copied options.now) result }
    {
        let mut builder = TextsBuilder::with_capacity(alloc, options.len(), 0)?;
        for i in 0..options.len() {
            builder.push(options[i])?;
        }
        let texts = builder.finish()?;
        Ok(texts)
    }

    /// The list of these words of validity and these bytes.
    pub(crate) fn of_parts(valid: Vec<u64>, values: TextBuffer) -> Mem<Texts>
        requires { AreTidyTexts valid.items values }
        ensures { IfOk result (λ texts. texts ≡ texts_of valid.items values) }
    {
        let alloc = *valid.allocator();
        let values = Rc::new(alloc, values)?;
        Ok(Texts { valid, values })
    }

    /// The words of validity and the bytes.
    fn parts(&self) -> (&[u64], &TextBuffer)
        ensures texts { texts_of result.0.now result.1.now ≡ self.now }
        ensures tidy { AreTidyTexts result.0.now result.1.now }
    {
        (self.valid.as_slice(), &self.values)
    }

    /// How many places there are. The texts at all of them fit one buffer.
    pub fn len(&self) -> usize
        ensures count { result ≡ length self.now }
        ensures fitting { FitOneBuffer self.now }
    {
        self.values.len()
    }

    /// The text at a place, counted from 0; none where it is null.
    pub fn text_at(&self, i: usize) -> Option<&str>
        requires { i < length self.now }
        ensures { option_copied result ≡ slice_index_or self.now i None }
    {
        let (valid, values) = self.parts();
        if !bit(valid, i) {
            return None;
        }
        Some(values.text_at(i))
    }

    /// Whether there is no text, place by place.
    pub fn is_null(&self, alloc: Global) -> Mem<Truths>
        ensures { IfOk result (λ truths. truths ≡ map null_test self.now) }
    {
        let (valid, values) = self.parts();
        let words = Vec::from_slice(alloc, valid)?;
        let known = Truths::of_words(values.len(), Vec::from_slice(alloc, valid)?, words);
        let nulls = known.is_null(alloc)?;
        Ok(nulls)
    }

    /// At how many places there is no text.
    pub fn null_count(&self) -> usize
        ensures { result ≡ length (filter is_none self.now) }
    {
        let (valid, values) = self.parts();
        values.len() - bit_count(valid)
    }

    /// How many bytes the texts have together.
    pub fn bytes_len(&self) -> usize
        ensures total { result ≡ byte_total self.now }
        ensures few { result < 2 ^ 32 }
    {
        let mut total = 0;
        'places: for i in 0..self.len() {
            total += byte_count(self.text_at(i));
        }
        total
    }

    /// The texts at the places where the other list is true, in order.
    pub fn filter(&self, alloc: Global, keep: &Truths) -> Mem<Texts>
        requires { length keep.now ≡ length self.now }
        ensures { IfOk result (λ texts. texts ≡ kept_items self.now keep.now) }
    {
        let mut kept = TextsBuilder::with_capacity(alloc, keep.true_count(), 0)?;
        let mut from = 0;
        let places = self.len();
        'kept: while let Some(i) = keep.next_true(from) {
            prove!(i < places);
            kept.add(self.text_at(i))?;
            from = i + 1;
        }
        kept.finish()
    }

    /// The texts, null where the other list is true.
    pub fn mask(&self, alloc: Global, nulls: &Truths) -> Mem<Texts>
        requires { length nulls.now ≡ length self.now }
        ensures { IfOk result (λ texts. texts ≡ zip2 hidden_if self.now nulls.now) }
    {
        let (_, hidden) = nulls.words();
        let valid = without(alloc, self.valid.as_slice(), hidden)?;
        let values = self.values.clone()?;
        Ok(Texts { valid, values })
    }

    /// The comparison of each text with the one at its place in the other list, by their bytes; null where one is null.
    pub fn compare(&self, alloc: Global, other: &Texts, op: CompareOperator) -> Mem<Truths>
        requires { length other.now ≡ length self.now }
        ensures { IfOk result (λ truths. truths ≡ zip2 (compared op) self.now other.now) }
    {
        let (left_valid, left) = self.parts();
        let (right_valid, right) = other.parts();
        let valid = both(alloc, left_valid, right_valid)?;
        let truths = pair_words(alloc, op, valid.as_slice(), left, right)?;
        Ok(Truths::of_words(left.len(), valid, truths))
    }

    /// The comparison of each text with this one, by their bytes; null where it is null.
    pub fn compare_with(&self, alloc: Global, text: &str, op: CompareOperator) -> Mem<Truths>
        ensures { IfOk result (λ truths. truths ≡ map (λ t. compared op t (Some text.now)) self.now) }
    {
        let (valid, values) = self.parts();
        let truths = words_against(alloc, op, valid, values, text)?;
        let valid = Vec::from_slice(alloc, valid)?;
        Ok(Truths::of_words(values.len(), valid, truths))
    }

    /// The least and the greatest text by their bytes; none where all are null.
    pub fn bounds(&self) -> (Option<&str>, Option<&str>)
        ensures least { option_copied result.0 ≡ least_text self.now }
        ensures greatest { option_copied result.1 ≡ greatest_text self.now }
    {
        let mut least = None;
        let mut greatest = None;
        let mut left = self.len();
        while left > 0 {
            left -= 1;
            let text = self.text_at(left);
            least = lesser(text, least);
            greatest = greater(text, greatest);
        }
        (least, greatest)
    }
}

impl Clone for Texts {
    ghost is_clone = { λ texts copy. copy ≡ texts };

    fn clone(&self) -> Result<Texts, AllocError> {
        let alloc = *self.valid.allocator();
        let valid = Vec::from_slice(alloc, self.valid.as_slice())?;
        let values = self.values.clone()?;
        Ok(Texts { valid, values })
    }
}

impl PartialEq for Texts {
    ghost eq = { texts_eq };

    ghost laws = { partial_equiv_from_equiv texts_eq_equiv };

    fn eq(&self, other: &Texts) -> bool
        ensures gives { result ≡ texts_eq self.now other.now }
        ensures same { Decides result (self.now ≡ other.now) }
    {
        same_texts(self, other)
    }
}

impl Eq for Texts {
    ghost laws = { texts_eq_equiv };
}

/// How many bytes a text has; null has none.
fn byte_count(text: Option<&str>) -> usize
    ensures { result ≡ byte_count (option_copied text.entry) }
{
    match text {
        Some(text) => text.len(),
        None => 0,
    }
}

/// Whether two lists have the same texts.
fn same_texts(left: &Texts, right: &Texts) -> bool
    ensures { Decides result (left.now ≡ right.now) }
{
    if left.len() != right.len() {
        return false;
    }
    'places: for i in 0..left.len() {
        if !same_text(left.text_at(i), right.text_at(i)) {
            return false;
        }
    }
    true
}

/// Whether two texts are one, or both are null.
fn same_text(left: Option<&str>, right: Option<&str>) -> bool
    ensures { result ≡ text_eq (option_copied left.entry) (option_copied right.entry) }
{
    match (left, right) {
        (None, None) => true,
        (Some(left), Some(right)) => left == right,
        _ => false,
    }
}
