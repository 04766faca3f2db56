// Comparisons of the texts of buffers.
ghost use Rattle.std.specs.Prelude.{◌≡◌, ◌&&◌, length, IfOk};
ghost use Rattle.vx_words.specs.Words.{bit_of};
ghost use Rattle.vx_words.specs.Truths.{words_for};
ghost use Rattle.vx_texts.specs.Texts.{texts_meet};
ghost use Rattle.vx_texts.specs.Layouts.{bytes_at, AreBits};

use crate::buffer::TextBuffer;
use crate::kernels::{PlaceTest, words};
use std::alloc::Global;
use vx_dtype::{CompareOperator, Mem};

/// The comparison of each text with the one at its place in another list.
#[derive(Drop)]
struct Pairs<'a> {
    op: CompareOperator,
    left: &'a TextBuffer,
    right: &'a TextBuffer,
    ghost as_many: { length right.now ≡ length left.now },
}

impl PlaceTest for Pairs<'_> {
    ghost count = { λ pairs. length pairs.left.now };

    ghost answer = { λ pairs i. texts_meet pairs.op (bytes_at pairs.left.now i) (bytes_at pairs.right.now i) };

    fn at(&self, i: usize) -> bool {
        texts_meet(self.op, self.left.text_at(i), self.right.text_at(i))
    }
}

/// The comparison of each text with one.
#[derive(Drop)]
struct Against<'a> {
    op: CompareOperator,
    left: &'a TextBuffer,
    right: &'a str,
}

impl PlaceTest for Against<'_> {
    ghost count = { λ test. length test.left.now };

    ghost answer = { λ test i. texts_meet test.op (bytes_at test.left.now i) test.right.now };

    fn at(&self, i: usize) -> bool {
        texts_meet(self.op, self.left.text_at(i), self.right)
    }
}

/// Where a comparison is true of the texts of two buffers, of the places whose bit is set.
pub(crate) fn pair_words(
    alloc: Global,
    op: CompareOperator,
    known: &[u64],
    left: &TextBuffer,
    right: &TextBuffer,
) -> Mem<Vec<u64>>
    requires known { length known.now ≡ words_for (length left.now) }
    requires as_many { length right.now ≡ length left.now }
    ensures { IfOk result (λ words. AreBits words.items (length left.now)
        (λ i. texts_meet op (bytes_at left.now i) (bytes_at right.now i) && bit_of known.now i)) }
{
    let pairs = Pairs { op, left, right };
    words(alloc, &pairs, known, left.len())
}

/// Where a comparison with one text is true of the texts of a buffer, of the places whose bit is set.
pub(crate) fn words_against(
    alloc: Global,
    op: CompareOperator,
    known: &[u64],
    left: &TextBuffer,
    right: &str,
) -> Mem<Vec<u64>>
    requires { length known.now ≡ words_for (length left.now) }
    ensures { IfOk result (λ words. AreBits words.items (length left.now)
        (λ i. texts_meet op (bytes_at left.now i) right.now && bit_of known.now i)) }
{
    let against = Against { op, left, right };
    words(alloc, &against, known, left.len())
}

/// Whether a comparison is true of two texts, by their bytes.
#[inline(always)]
fn texts_meet(op: CompareOperator, left: &str, right: &str) -> bool
    ensures { result ≡ texts_meet op left.now right.now }
{
    match op {
        CompareOperator::Eq => left == right,
        CompareOperator::NotEq => left != right,
        CompareOperator::Gt => left > right,
        CompareOperator::Gte => left >= right,
        CompareOperator::Lt => left < right,
        CompareOperator::Lte => left <= right,
    }
}
