// Texts in a document of marks.
ghost use Rattle.std.specs.Prelude.{◌≡◌, ◌++◌, IfOk, OnOk};
ghost use Rattle.std.specs.Char.{encode_utf8};
ghost use Rattle.std.specs.List.{flat_map};
ghost use Rattle.std.specs.String.{string_bytes};
ghost use Rattle.vx_laws_explaining.specs.ExplainedPictures as spec;

use std::alloc::Global;
use vx_dtype::Mem;

/// Writes a character at the end, as far as there is memory, escaped where it has to be.
#[tactic(auto, using(crate::proofs::MarkLemmas::plain_character))]
fn push_marked(out: &mut String, c: char) -> Mem<()>
    ensures { OnOk result (string_bytes out.new ≡ string_bytes out.old ++ flat_map spec.marked_byte (encode_utf8 c)) }
{
    match c {
        '&' => Ok(out.push_str("&amp;")?),
        '<' => Ok(out.push_str("&lt;")?),
        '>' => Ok(out.push_str("&gt;")?),
        '"' => Ok(out.push_str("&quot;")?),
        '\0'..='\u{1f}' => Ok(out.push_str("?")?),
        _ => Ok(out.push(c)?),
    }
}

/// A text in a document: what would end the text or begin a mark is escaped, and `?` stands for a control character.
#[tactic(auto, unfolding(vx_laws_explaining::specs::ExplainedPictures::marked_text))]
pub(crate) fn marked_text(alloc: Global, text: &str) -> Mem<String>
    ensures { IfOk result (λ marked. string_bytes marked ≡ spec.marked_text text.now) }
{
    let mut marked = String::new(alloc);
    for c in text.chars() {
        push_marked(&mut marked, c)?;
    }
    Ok(marked)
}
