// Characters, and the words and signs that they make.
ghost use Rattle.std.specs.Prelude.{◌≡◌, ◌∷◌, option_map};
ghost use Rattle.vx_tokens.specs.Tokens.{is_blank, is_digit, is_first, is_inner, connective_of, call_word_of, match_word_of, keyword_of};
ghost use Rattle.vx_tokens.specs.Tokens.{two_signs, bracket_of, stop_of, operation_of, one_sign};

use crate::tokens::{Keyword, Sign};

/// Whether a character stands between tokens and means nothing.
pub(crate) fn is_blank(byte: u8) -> bool
    ensures { result ≡ is_blank byte }
{
    byte == 32 || (byte == 9 || (byte == 10 || byte == 13))
}

/// Whether a character is a digit.
pub(crate) fn is_digit(byte: u8) -> bool
    ensures { result ≡ is_digit byte }
{
    47 < byte && byte < 58
}

/// Whether a character may begin a word.
pub(crate) fn is_first(byte: u8) -> bool
    ensures { result ≡ is_first byte }
{
    (64 < byte && byte < 91) || (byte == 95 || (96 < byte && byte < 123))
}

/// Whether a character may stand in a word.
pub(crate) fn is_inner(byte: u8) -> bool
    ensures { result ≡ is_inner byte }
{
    is_first(byte) || is_digit(byte)
}

/// The reserved word that is no call.
fn connective_of(word: &str) -> Option<Keyword>
    ensures { result ≡ connective_of word.now }
{
    match word {
        "or" => Some(Keyword::Or),
        "and" => Some(Keyword::And),
        "not" => Some(Keyword::Not),
        "true" => Some(Keyword::True),
        "false" => Some(Keyword::False),
        "null" => Some(Keyword::Null),
        "lit" => Some(Keyword::Lit),
        _ => None,
    }
}

/// The word of a call that is no match and no range.
fn call_word_of(word: &str) -> Option<Keyword>
    ensures { result ≡ call_word_of word.now }
{
    match word {
        "is_null" => Some(Keyword::IsNull),
        "cast" => Some(Keyword::Cast),
        "contains" => Some(Keyword::Contains),
        "pack" => Some(Keyword::Pack),
        "pack_null" => Some(Keyword::PackNull),
        "merge" => Some(Keyword::Merge),
        "merge_null" => Some(Keyword::MergeNull),
        _ => None,
    }
}

/// The word of a match or a range.
fn match_word_of(word: &str) -> Option<Keyword>
    ensures { result ≡ match_word_of word.now }
{
    match word {
        "like" => Some(Keyword::Like),
        "not_like" => Some(Keyword::NotLike),
        "ilike" => Some(Keyword::Ilike),
        "not_ilike" => Some(Keyword::NotIlike),
        "between" => Some(Keyword::Between),
        "between_oo" => Some(Keyword::BetweenOo),
        "between_oc" => Some(Keyword::BetweenOc),
        "between_co" => Some(Keyword::BetweenCo),
        _ => None,
    }
}

/// The reserved word of this spelling.
#[tactic(auto, unfolding(crate::specs::Tokens::keyword_of))]
pub(crate) fn keyword_of(word: &str) -> Option<Keyword>
    ensures { result ≡ keyword_of word.now }
{
    if let Some(keyword) = connective_of(word) {
        return Some(keyword);
    }
    if let Some(keyword) = call_word_of(word) {
        return Some(keyword);
    }
    match_word_of(word)
}

/// The sign of two characters.
pub(crate) fn two_signs(first: u8, second: u8) -> Option<Sign>
    ensures { result ≡ two_signs first second }
{
    if second != 61 {
        return None;
    }
    match first {
        33 => Some(Sign::NotEq),
        62 => Some(Sign::Gte),
        60 => Some(Sign::Lte),
        _ => None,
    }
}

/// The bracket that a character is.
fn bracket_of(byte: u8) -> Option<Sign>
    ensures { result ≡ bracket_of byte }
{
    match byte {
        b'(' => Some(Sign::RoundOpen),
        b')' => Some(Sign::RoundClose),
        b'[' => Some(Sign::SquareOpen),
        b']' => Some(Sign::SquareClose),
        b'{' => Some(Sign::CurlyOpen),
        b'}' => Some(Sign::CurlyClose),
        _ => None,
    }
}

/// The stop, or other sign between parts, that a character is.
fn stop_of(byte: u8) -> Option<Sign>
    ensures { result ≡ stop_of byte }
{
    match byte {
        b',' => Some(Sign::Comma),
        b':' => Some(Sign::Colon),
        b'.' => Some(Sign::Dot),
        b'$' => Some(Sign::Dollar),
        b'?' => Some(Sign::Question),
        b'~' => Some(Sign::Tilde),
        _ => None,
    }
}

/// The sign of an operation that a character is.
fn operation_of(byte: u8) -> Option<Sign>
    ensures { result ≡ operation_of byte }
{
    match byte {
        b'+' => Some(Sign::Plus),
        b'-' => Some(Sign::Minus),
        b'=' => Some(Sign::Eq),
        b'>' => Some(Sign::Gt),
        b'<' => Some(Sign::Lt),
        _ => None,
    }
}

/// The sign that a character is.
#[tactic(auto, unfolding(crate::specs::Tokens::one_sign))]
pub(crate) fn one_sign(byte: u8) -> Option<Sign>
    ensures { result ≡ one_sign byte }
{
    if let Some(sign) = bracket_of(byte) {
        return Some(sign);
    }
    if let Some(sign) = stop_of(byte) {
        return Some(sign);
    }
    operation_of(byte)
}
