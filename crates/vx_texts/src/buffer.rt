// Texts that stand one behind the other in one buffer. None of them is null.
ghost use Rattle.std.specs.Prelude.{◌≡◌, ℕ, ◌+◌, ◌^◌, ◌<◌, ◌≤◌, ◌==◌, ◌&&◌, ◌||◌, [], ◌∷◌, ◌++◌, length, slice_index_or, sum_by, IfOk, OnOk, OnErr};
ghost use Rattle.std.specs.String.{string_bytes, string_len, string_capacity};
ghost use Rattle.std.specs.Vec.{vec_capacity, vec_len};
ghost use Rattle.vx_words.specs.Words.{bit_of};
ghost use Rattle.vx_words.specs.Truths.{words_for};

use std::alloc::Global;
use std::marker::Model;
use vx_dtype::Mem;
use vx_words::push_bit;

/// How many bytes one buffer takes at most: what an offset can say.
pub(crate) const MOST_BYTES: usize = 0xffff_ffff;

/// Texts, one behind the other. It is seen as their list.
#[derive(Debug, Drop)]
pub(crate) struct TextBuffer {
    bytes: String,
    offsets: Vec<u32>,
}

impl Model for TextBuffer {
    ghost use Rattle.std.specs.Prelude.{ℕ, List};
    ghost use Rattle.std.specs.String.{string_bytes};
    ghost use Rattle.vx_texts.specs.Buffers.{cut_texts, AreOffsets};

    ghost Value = { List (List ℕ) };

    ghost view = { λ b. cut_texts (string_bytes b.bytes) b.offsets.items };

    ghost invariant = { λ b. AreOffsets (string_bytes b.bytes) b.offsets.items };
}

impl TextBuffer {
    /// No texts, with room for this many of this many bytes together.
    pub(crate) fn with_capacity(alloc: Global, texts: usize, bytes: usize) -> Mem<TextBuffer>
        ensures { IfOk result (λ buffer. buffer ≡ []) }
    {
        let bytes = String::with_capacity(alloc, bytes)?;
        let offsets = first_offset(alloc, texts)?;
        Ok(TextBuffer { bytes, offsets })
    }

    /// How many texts there are.
    pub(crate) fn len(&self) -> usize
        ensures { result ≡ length self.now }
    {
        self.offsets.len() - 1
    }

    /// How many bytes the texts have together.
    pub(crate) fn bytes_len(&self) -> usize
        ensures total { result ≡ sum_by length self.now }
        ensures few { result < 2 ^ 32 }
    {
        self.bytes.as_str().len()
    }

    /// The text at a place, counted from 0.
    pub(crate) fn text_at(&self, i: usize) -> &str
        requires { i < length self.now }
        ensures { result.now ≡ slice_index_or self.now i [] }
    {
        let from = self.offsets[i] as usize;
        let to = self.offsets[i + 1] as usize;
        &self.bytes.as_str()[from..to]
    }

    /// Puts a text behind the last, and a bit behind those that stand for the texts before. Where memory runs out both are as they were.
    pub(crate) fn push(&mut self, valid: &mut Vec<u64>, known: bool, text: &str) -> Mem<()>
        requires words { length valid.old.items ≡ words_for (length self.old) }
        requires few { sum_by length self.old + length text.now < 2 ^ 32 }
        ensures texts { IfOk result (λ _. self.new ≡ self.old ++ text.now ∷ []) }
        ensures lengths { IfOk result (λ _. length valid.new.items ≡ words_for (length self.old + 1)) }
        ensures bits { IfOk result (λ _. (j : ℕ) → bit_of valid.new.items j ≡ ((j == length self.old && known) || bit_of valid.old.items j)) }
        ensures kept { OnErr result ((self.new ≡ self.old) × (valid.new.items ≡ valid.old.items)) }
    {
        let len = self.offsets.len() - 1;
        make_room(&mut self.bytes, &mut self.offsets, text.len())?;
        push_bit(valid, len, known)?;
        push_text(&mut self.bytes, &mut self.offsets, text);
        Ok(())
    }
}

/// The offset of the first text alone, with room for those behind it.
fn first_offset(alloc: Global, texts: usize) -> Mem<Vec<u32>>
    ensures { IfOk result (λ offsets. offsets.items ≡ 0 ∷ []) }
{
    let mut offsets = Vec::with_capacity(alloc, texts.saturating_add(1))?;
    offsets.push(0)?;
    Ok(offsets)
}

/// Makes room for one text more, of this many bytes.
fn make_room(bytes: &mut String, offsets: &mut Vec<u32>, more: usize) -> Mem<()>
    ensures bytes { string_bytes bytes.new ≡ string_bytes bytes.old }
    ensures offsets { offsets.new.items ≡ offsets.old.items }
    ensures room { OnOk result ((string_len bytes.new + more ≤ string_capacity bytes.new) × (vec_len offsets.new + 1 ≤ vec_capacity offsets.new)) }
{
    bytes.reserve(more)?;
    offsets.reserve(1)?;
    Ok(())
}

/// Puts a text behind the last, where there is room for it, and the offset at which it ends behind the offsets.
fn push_text(bytes: &mut String, offsets: &mut Vec<u32>, text: &str)
    requires room { string_len bytes.old + length text.now ≤ string_capacity bytes.old }
    requires place { vec_len offsets.old + 1 ≤ vec_capacity offsets.old }
    requires few { length (string_bytes bytes.old) + length text.now < 2 ^ 32 }
    ensures bytes { string_bytes bytes.new ≡ string_bytes bytes.old ++ text.now }
    ensures offsets { offsets.new.items ≡ offsets.old.items ++ length (string_bytes bytes.old ++ text.now) ∷ [] }
{
    bytes.push_str(text).unwrap();
    offsets.push(bytes.as_str().len() as u32).unwrap();
}
