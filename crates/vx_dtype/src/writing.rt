// What several texts need: separators between parts, and texts within quotes.
ghost use Rattle.std.specs.Prelude.{◌≡◌, ◌<◌, ◌∷◌, [], Some};
ghost use Rattle.std.specs.Fmt.{WritesOnOk};
ghost use Rattle.std.specs.List.{flat_map};
ghost use Rattle.std.specs.Char.{encode_utf8};
ghost use Rattle.vx_dtype.specs.Texts.{separator_at, hex_digit, control_text, escaped_byte, quoted_text};

use std::fmt;

/// What stands before the part at this place: nothing before the first, `, ` before the others.
pub fn separator(i: usize) -> &'static str
    ensures { result.now ≡ separator_at i }
{
    if i == 0 { "" } else { ", " }
}

/// A text that prints within quotes: `"` and `\` behind a backslash, control characters by their escapes as in JSON, all else as it is.
#[derive(Clone, Copy, Debug)]
pub struct Quoted<'a>(pub &'a str);

impl<'a> fmt::Display for Quoted<'a> {
    ghost output = { λ quoted. Some (quoted_text quoted.0.now) };

    fn fmt<W: fmt::Write>(&self, f: &mut fmt::Formatter<W>) -> fmt::Result {
        write_quoted(self.0, f)
    }
}

/// Writes a text within quotes, with its escapes.
pub(crate) fn write_quoted<W: fmt::Write>(text: &str, f: &mut fmt::Formatter<W>) -> fmt::Result
    ensures { WritesOnOk W.write_str_gives f.old result (quoted_text text.now) f.new }
{
    f.write_str("\"")?;
    write_escaped(text, f)?;
    f.write_str("\"")
}

/// Writes each character of a text, escaped where it has to be.
fn write_escaped<W: fmt::Write>(text: &str, f: &mut fmt::Formatter<W>) -> fmt::Result
    ensures { WritesOnOk W.write_str_gives f.old result (flat_map escaped_byte text.now) f.new }
{
    for c in text.chars() {
        write_character(c, f)?;
    }
    Ok(())
}

/// Writes a character, escaped where it has to be.
#[tactic(auto, using(crate::proofs::TextLemmas::plain_character))]
fn write_character<W: fmt::Write>(c: char, f: &mut fmt::Formatter<W>) -> fmt::Result
    ensures { WritesOnOk W.write_str_gives f.old result (flat_map escaped_byte (encode_utf8 c)) f.new }
{
    match c {
        '"' => f.write_str("\\\""),
        '\\' => f.write_str("\\\\"),
        '\u{8}' => f.write_str("\\b"),
        '\t' => f.write_str("\\t"),
        '\n' => f.write_str("\\n"),
        '\u{c}' => f.write_str("\\f"),
        '\r' => f.write_str("\\r"),
        '\0'..='\u{1f}' => write_control(c as u8, f),
        _ => f.write_char(c),
    }
}

/// Writes a control character that has no letter for its escape.
fn write_control<W: fmt::Write>(byte: u8, f: &mut fmt::Formatter<W>) -> fmt::Result
    requires { byte < 32 }
    ensures { WritesOnOk W.write_str_gives f.old result (control_text byte) f.new }
{
    f.write_str("\\u00")?;
    f.write_char(digit(byte / 16))?;
    f.write_char(digit(byte % 16))
}

/// A hexadecimal digit, in lower case.
fn digit(n: u8) -> char
    requires { n < 16 }
    ensures { result ≡ hex_digit n }
{
    if n < 10 {
        char::from(b'0' + n)
    } else {
        char::from(b'a' + (n - 10))
    }
}
