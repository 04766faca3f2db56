// What can't be read, as lines show it.
ghost use Rattle.std.specs.Prelude.{◌≡◌, IfOk};
ghost use Rattle.std.specs.String.{string_bytes};
ghost use Rattle.vx_sql_lines.specs.Lines as spec;

use crate::names::named;
use crate::words::{behind, first_word, statement_word};
use sqlite_syntax::error::ParseError;
use std::alloc::Global;
use vx_dtype::Mem;

/// A place in a text, and what is told of it.
pub(crate) fn at_byte(alloc: Global, place: usize, what: &str) -> Mem<String>
    ensures { IfOk result (λ line. string_bytes line ≡ spec.at_byte place what.now) }
{
    Ok(format!(in alloc; "at byte {place}: {what}")?)
}

/// What is told of the word where a text can't be read, which is empty at its end.
fn unread_word(alloc: Global, word: &[u8]) -> Mem<String>
    ensures { IfOk result (λ line. string_bytes line ≡ spec.unread_word word.now) }
{
    if word.is_empty() {
        return Ok(String::from_str(alloc, "the statement ends too early")?);
    }
    named(alloc, "\"", word, "\" can't be read here")
}

/// A text can't be read at a place.
fn unread_at(alloc: Global, text: &str, place: usize) -> Mem<String>
    ensures { IfOk result (λ line. string_bytes line ≡ spec.unread_at text.now place) }
{
    let word = first_word(behind(text.as_bytes(), place));
    let what = unread_word(alloc, word)?;
    at_byte(alloc, place, what.as_str())
}

/// The grammar has no rule for a text.
pub(crate) fn unread_line(alloc: Global, text: &str, error: ParseError) -> Mem<String>
    ensures { IfOk result (λ line. string_bytes line ≡ spec.unread_line text.now error) }
{
    match error {
        ParseError::Syntax(left) => unread_at(alloc, text, text.len().saturating_sub(left)),
        ParseError::Unsupported(left) => unread_at(alloc, text, text.len().saturating_sub(left)),
        ParseError::TooDeep => Ok(String::from_str(alloc, "the statement is too deep")?),
        ParseError::BadParameter => Ok(String::from_str(alloc, "parameters are not taken")?),
        ParseError::OutOfMemory => Ok(String::new(alloc)),
    }
}

/// Another statement than SELECT.
pub(crate) fn no_select_line(alloc: Global, text: &str) -> Mem<String>
    ensures { IfOk result (λ line. string_bytes line ≡ spec.no_select_line (spec.statement_word text.now)) }
{
    let word = statement_word(text.as_bytes());
    if word.is_empty() {
        return Ok(String::from_str(alloc, "another statement than SELECT is not taken")?);
    }
    named(alloc, "", word, " is not taken")
}
