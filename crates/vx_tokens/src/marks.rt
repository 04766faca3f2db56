// Texts between marks, and names.
ghost use Rattle.std.specs.Prelude.{◌≡◌, ◌<◌, ◌++◌, [], true, Some};
ghost use Rattle.std.specs.List.{flat_map, list_all};
ghost use Rattle.std.specs.Char.{encode_utf8};
ghost use Rattle.std.specs.Fmt.{WritesOnOk};
ghost use Rattle.vx_tokens.specs.Tokens.{is_inner};
ghost use Rattle.vx_tokens.specs.Names.{doubled, within_marks, is_word, is_plain_word, name_text, names_text};

use crate::characters::{is_first, is_inner, keyword_of};
use std::fmt;
use vx_dtype::FieldName;

/// A text that prints between `'`, each `'` in it twice: `'it''s'`. Fails only where the writer does.
#[derive(Clone, Copy, Debug)]
pub struct Quote<'a>(pub &'a str);

impl<'a> fmt::Display for Quote<'a> {
    ghost output = { λ quote. Some (within_marks 39 quote.0.now) };

    fn fmt<W: fmt::Write>(&self, f: &mut fmt::Formatter<W>) -> fmt::Result {
        write_within_marks('\'', self.0, f)
    }
}

/// A name that prints as a word where it can be one, else between `"`, each `"` in it twice: `a_1`, `"or"`, `"a b"`.
/// Fails only where the writer does.
#[derive(Clone, Copy, Debug)]
pub struct Name<'a>(pub &'a str);

impl<'a> fmt::Display for Name<'a> {
    ghost output = { λ name. Some (name_text name.0.now) };

    fn fmt<W: fmt::Write>(&self, f: &mut fmt::Formatter<W>) -> fmt::Result {
        write_name(self.0, f)
    }
}

/// Names that print as [`Name`] does, with `, ` between any two: `a, "b c"`. Fails only where the writer does.
#[derive(Clone, Copy, Debug)]
pub struct Names<'a>(pub &'a [FieldName]);

impl<'a> fmt::Display for Names<'a> {
    ghost output = { λ names. Some (names_text [] names.0.now) };

    fn fmt<W: fmt::Write>(&self, f: &mut fmt::Formatter<W>) -> fmt::Result {
        write_names(self.0, f)
    }
}

/// Writes a character, twice where it is the mark.
#[tactic(auto, using(crate::proofs::MarkLemmas::mark_character, crate::proofs::MarkLemmas::other_character))]
fn write_character<W: fmt::Write>(mark: char, c: char, f: &mut fmt::Formatter<W>) -> fmt::Result
    requires { mark < 128 }
    ensures { WritesOnOk W.write_str_gives f.old result (flat_map (doubled mark) (encode_utf8 c)) f.new }
{
    if c == mark {
        f.write_char(c)?;
        return f.write_char(c);
    }
    f.write_char(c)
}

/// Writes a text, each mark in it twice.
fn write_doubled<W: fmt::Write>(mark: char, text: &str, f: &mut fmt::Formatter<W>) -> fmt::Result
    requires { mark < 128 }
    ensures { WritesOnOk W.write_str_gives f.old result (flat_map (doubled mark) text.now) f.new }
{
    for c in text.chars() {
        write_character(mark, c, f)?;
    }
    Ok(())
}

/// Writes a text between two marks, each mark in it twice.
#[tactic(auto, using(crate::proofs::MarkLemmas::mark_alone))]
fn write_within_marks<W: fmt::Write>(
    mark: char,
    text: &str,
    f: &mut fmt::Formatter<W>,
) -> fmt::Result
    requires { mark < 128 }
    ensures { WritesOnOk W.write_str_gives f.old result (within_marks mark text.now) f.new }
{
    f.write_char(mark)?;
    write_doubled(mark, text, f)?;
    f.write_char(mark)
}

/// Whether each character may stand in a word.
fn all_inner(bytes: &[u8]) -> bool
    ensures { result ≡ list_all is_inner bytes.now }
{
    bytes.iter().all(|byte| is_inner(*byte))
}

/// Whether a name has the characters of a word.
fn is_word(name: &[u8]) -> bool
    ensures { result ≡ is_word name.now }
{
    match name {
        [] => false,
        [first, rest @ ..] => is_first(*first) && all_inner(rest),
    }
}

/// Whether a name can be a word.
fn is_plain_word(name: &str) -> bool
    ensures { result ≡ is_plain_word name.now }
{
    is_word(name.as_bytes()) && keyword_of(name).is_none()
}

/// Writes a name: as a word where it can be one, else between `"`.
#[tactic(auto, unfolding(crate::specs::Names::name_text))]
fn write_name<W: fmt::Write>(name: &str, f: &mut fmt::Formatter<W>) -> fmt::Result
    ensures { WritesOnOk W.write_str_gives f.old result (name_text name.now) f.new }
{
    if is_plain_word(name) {
        f.write_str(name)
    } else {
        write_within_marks('"', name, f)
    }
}

/// Writes names with `, ` between any two.
#[tactic(auto, unfolding(crate::specs::Names::names_text))]
fn write_names<W: fmt::Write>(names: &[FieldName], f: &mut fmt::Formatter<W>) -> fmt::Result
    ensures { WritesOnOk W.write_str_gives f.old result (names_text [] names.now) f.new }
{
    let mut separator = "";
    for i in 0..names.len() {
        f.write_str(separator)?;
        write_name(names[i].as_str(), f)?;
        separator = ", ";
    }
    Ok(())
}
