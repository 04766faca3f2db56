// Names and texts as a line shows them.
ghost use Rattle.std.specs.Prelude.{◌≡◌, ◌<◌, ◌++◌, map, IfOk, OnOk};
ghost use Rattle.std.specs.List.{flat_map};
ghost use Rattle.std.specs.String.{string_bytes};
ghost use Rattle.vx_sql_lines.specs.Lines as spec;

use std::alloc::Global;
use vx_dtype::Mem;

/// A byte of what is no text: as it is up to 127, else `?`.
fn ascii_byte(byte: u8) -> char
    ensures gives { result ≡ spec.ascii_byte byte }
    ensures within { result < 128 }
{
    if byte < 128 { char::from(byte) } else { '?' }
}

/// Bytes that are no text, each past 127 as `?`.
fn in_ascii(alloc: Global, bytes: &[u8]) -> Mem<String>
    ensures { IfOk result (λ text. string_bytes text ≡ map spec.ascii_byte bytes.now) }
{
    let mut text = String::new(alloc);
    for byte in bytes {
        text.push(ascii_byte(*byte))?;
    }
    Ok(text)
}

/// Bytes as a line shows them: as they are where they are UTF-8, and else each past 127 as `?`.
#[tactic(auto, using(vx_sql::proofs::Texts::known_text, vx_sql::proofs::Texts::no_text), unfolding(crate::specs::Lines::shown))]
pub(crate) fn shown(alloc: Global, bytes: &[u8]) -> Mem<String>
    ensures { IfOk result (λ text. string_bytes text ≡ spec.shown bytes.now) }
{
    match str::from_utf8(bytes) {
        Ok(text) => Ok(String::from_str(alloc, text)?),
        Err(_) => in_ascii(alloc, bytes),
    }
}

/// A name between two texts.
pub(crate) fn named(alloc: Global, before: &str, name: &[u8], behind: &str) -> Mem<String>
    ensures { IfOk result (λ text. string_bytes text ≡ spec.named before.now name.now behind.now) }
{
    let name = shown(alloc, name)?;
    Ok(format!(in alloc; "{before}{name}{behind}")?)
}

/// A text between `'`, with each `'` of it doubled.
pub(crate) fn text_literal(alloc: Global, text: &str) -> Mem<String>
    ensures { IfOk result (λ literal. string_bytes literal ≡ spec.text_literal text.now) }
{
    let mut literal = String::from_str(alloc, "'")?;
    push_doubled(&mut literal, text)?;
    literal.push_str("'")?;
    Ok(literal)
}

/// Writes a text at the end, with each `'` of it doubled, as far as there is memory.
fn push_doubled(out: &mut String, text: &str) -> Mem<()>
    ensures { OnOk result (string_bytes out.new ≡ string_bytes out.old ++ flat_map spec.doubled_quote text.now) }
{
    let mut left = text;
    while let Some((before, behind)) = left.split_once('\'') {
        out.push_str(before)?;
        out.push_str("''")?;
        left = behind;
    }
    Ok(out.push_str(left)?)
}
