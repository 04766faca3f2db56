// Lists of texts, built text by text.
ghost use Rattle.std.specs.Prelude.{◌≡◌, ◌+◌, ◌^◌, ◌<◌, [], ◌∷◌, ◌++◌, length, is_some, option_copied, IfOk, OnOk, OnErr};
ghost use Rattle.vx_texts.specs.Texts.{byte_count, byte_total};
ghost use Rattle.vx_texts.specs.Layouts.{text_of};
ghost use Rattle.vx_texts.specs.Refusals.{TakesFitting};

use crate::buffer::{MOST_BYTES, TextBuffer};
use crate::errors::TextsError;
use crate::texts::Texts;
use std::alloc::Global;
use std::marker::Model;
use vx_dtype::Mem;

/// A list of texts that grows, null at some places. It is seen as the list.
#[derive(Debug, Drop)]
pub struct TextsBuilder {
    valid: Vec<u64>,
    values: TextBuffer,
}

impl Model for TextsBuilder {
    ghost use Rattle.std.specs.Prelude.{ℕ, Option, List};
    ghost use Rattle.vx_texts.specs.Layouts.{texts_of, AreBareTexts};

    ghost Value = { List (Option (List ℕ)) };

    ghost view = { λ b. texts_of b.valid.items b.values };

    ghost invariant = { λ b. AreBareTexts b.valid.items b.values };
}

impl TextsBuilder {
    /// No texts.
    pub fn new(alloc: Global) -> Mem<TextsBuilder>
        ensures { IfOk result (λ builder. builder ≡ []) }
    {
        TextsBuilder::with_capacity(alloc, 0, 0)
    }

    /// No texts, with room for this many of this many bytes together.
    pub fn with_capacity(alloc: Global, texts: usize, bytes: usize) -> Mem<TextsBuilder>
        ensures { IfOk result (λ builder. builder ≡ []) }
    {
        let values = TextBuffer::with_capacity(alloc, texts, bytes)?;
        Ok(TextsBuilder {
            valid: Vec::new(alloc),
            values,
        })
    }

    /// How many texts there are, nulls counted.
    pub fn len(&self) -> usize
        ensures { result ≡ length self.now }
    {
        self.values.len()
    }

    /// How many bytes the texts have together.
    pub fn bytes_len(&self) -> usize
        ensures total { result ≡ byte_total self.now }
        ensures few { result < 2 ^ 32 }
    {
        self.values.bytes_len()
    }

    /// Puts a text, or null, behind the last. TooLong exactly where the texts would then have 2^32 bytes together, or more. After a refusal the
    /// builder is as it was.
    #[tactic(auto, using(std::proofs::lemmas::List::Sums::sum_by_push))]
    pub fn push(&mut self, text: Option<&str>) -> Result<(), TextsError>
        ensures pushed { OnOk result (self.new ≡ self.old ++ option_copied text.entry ∷ []) }
        ensures fitting { TakesFitting (self.old ++ option_copied text.entry ∷ []) result }
        ensures kept { OnErr result (self.new ≡ self.old) }
    {
        if bytes_of(text).len() > MOST_BYTES - self.bytes_len() {
            return Err(TextsError::TooLong);
        }
        self.add(text)?;
        Ok(())
    }

    /// Puts a text, or null, behind the last, where there is room for its bytes. Where memory runs out the builder is as it was.
    pub(crate) fn add(&mut self, text: Option<&str>) -> Mem<()>
        requires { byte_total self.old + byte_count (option_copied text) < 2 ^ 32 }
        ensures pushed { OnOk result (self.new ≡ self.old ++ option_copied text.entry ∷ []) }
        ensures kept { OnErr result (self.new ≡ self.old) }
    {
        let known = text.is_some();
        let bytes = bytes_of(text);
        self.values.push(&mut self.valid, known, bytes)?;
        Ok(())
    }

    /// The list of the texts.
    pub fn finish(self) -> Mem<Texts>
        ensures { IfOk result (λ texts. texts ≡ self) }
    {
        Texts::of_parts(self.valid, self.values)
    }
}

/// The bytes of a text, and none of null.
fn bytes_of(text: Option<&str>) -> &str
    ensures text { text_of (is_some text.entry) result.now ≡ option_copied text.entry }
    ensures count { length result.now ≡ byte_count (option_copied text.entry) }
{
    match text {
        Some(text) => text,
        None => "",
    }
}
