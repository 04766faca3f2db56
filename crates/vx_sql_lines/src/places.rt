// The place in a statement that is told with the line of its refusal.
ghost use Rattle.std.specs.Prelude.{◌≡◌, ◌-◌, length, slice_index, option_copied};
ghost use Rattle.vx_sql_lines.specs.Lines as spec;
ghost use Rattle.vx_sql.specs.StatementAnswers.{statement_refusal_view};

use crate::quoted_words::quoted_word;
use crate::words::is_of_word;
use sqlite_syntax::error::ParseError;
use vx_sql::StatementRefusal;

/// The length of the longest word that is looked for.
const LONGEST_WORD: usize = 128;

/// Whether a text's first byte is of a word.
fn begins_of_word(text: &[u8]) -> bool
    ensures { result ≡ spec.is_of_word (slice_index text.now 0) }
{
    match text {
        [] => false,
        [byte, ..] => is_of_word(*byte),
    }
}

/// Whether a text's last byte is of a word.
fn ends_of_word(text: &[u8]) -> bool
    ensures { result ≡ spec.is_of_word (slice_index text.now (length text.now - 1)) }
{
    match text {
        [] => false,
        [.., byte] => is_of_word(*byte),
    }
}

/// Whether a text begins with a word that stands there whole, behind a byte that is of a word or isn't.
fn begins_with_word(word: &[u8], before: bool, text: &[u8]) -> bool
    ensures { result ≡ spec.begins_with_word word.now before text.now }
{
    if !text.starts_with(word) {
        return false;
    }
    if before && begins_of_word(word) {
        return false;
    }
    !(ends_of_word(word) && begins_of_word(&text[word.len()..]))
}

/// The place where a word stands whole in a text, where it stands there once. None for an empty word.
#[tactic(auto, unfolding(crate::specs::Lines::place_of, crate::specs::Lines::places_from))]
fn place_of(text: &[u8], word: &[u8]) -> Option<usize>
    ensures { result ≡ spec.place_of text.now word.now }
{
    if word.is_empty() {
        return None;
    }
    let mut found = None;
    let mut before = false;
    let mut place: usize = 0;
    let mut left = text;
    while let [byte, rest @ ..] = left {
        if begins_with_word(word, before, left) {
            if found.is_some() {
                return None;
            }
            found = Some(place);
        }
        before = is_of_word(*byte);
        place += 1;
        left = rest;
    }
    found
}

/// The place of a word that isn't too long to be looked for.
fn word_place(text: &[u8], word: Option<&[u8]>) -> Option<usize>
    ensures { result ≡ spec.word_place text.now (option_copied word.entry) }
{
    let word = word?;
    if word.len() > LONGEST_WORD {
        return None;
    }
    place_of(text, word)
}

/// Where a text of so many bytes can't be read.
fn unread_place(bytes: usize, error: ParseError) -> Option<usize>
    ensures { result ≡ spec.unread_place bytes error }
{
    match error {
        ParseError::Syntax(left) => Some(bytes.saturating_sub(left)),
        ParseError::Unsupported(left) => Some(bytes.saturating_sub(left)),
        _ => None,
    }
}

/// The place in a statement, in bytes from 0, that is told with the line of its refusal: where it can't be read, where its second statement
/// begins, or where the word stands that the line quotes. `text` is the statement.
///
/// None exactly where the line quotes no word of the statement, and where the word doesn't stand whole in the statement just once, is empty or has
/// more than 128 bytes. A name with a quote in it isn't looked for, since it may be written otherwise. The statement is gone over once.
#[tactic(auto, unfolding(crate::specs::Lines::refused_at))]
pub fn refused_at(text: &str, refusal: &StatementRefusal) -> Option<usize>
    ensures { result ≡ spec.refused_at text.now (statement_refusal_view refusal.now) }
{
    match refusal {
        StatementRefusal::ZeroByte(place) => Some(*place),
        StatementRefusal::Unread(error) => unread_place(text.len(), *error),
        StatementRefusal::SecondStatement(place) => Some(*place),
        _ => word_place(text.as_bytes(), quoted_word(refusal)),
    }
}
