// The tokens of a text, the longest at each place.
ghost use Rattle.std.specs.Prelude.{◌≡◌, ◌∷◌, ◌<◌, [], true, IfOk, Some, option_map};
ghost use Rattle.std.specs.Str.{IsUtf8};
ghost use Rattle.vx_tokens.specs.Tokens.{is_digit, is_inner, is_of, is_number, run_of, quoted_run, quoted_behind, front, behind_mark, behind_blank};
ghost use Rattle.vx_tokens.specs.Tokens.{word_token, word_behind, name_behind, text_behind};
ghost use Rattle.vx_tokens.specs.Tokens.{suffix_of, number_of, number_within, number_behind, sign_at, marked_at, token_at, tokens_of};

use crate::characters::{is_blank, is_digit, is_first, is_inner, keyword_of, one_sign, two_signs};
use crate::tokens::Token;
use std::alloc::Global;
use vx_dtype::{Mem, PType, Text};

/// The classes of characters that a token has a run of.
#[derive(Clone, Copy)]
enum Class {
    Digits,
    Inner,
}

/// Whether a character is of the class.
fn is_of(class: Class, byte: u8) -> bool
    ensures { result ≡ is_of class byte }
{
    match class {
        Class::Digits => is_digit(byte),
        Class::Inner => is_inner(byte),
    }
}

/// The longest run of characters of a class at the front, and what stands behind it.
fn run_front(class: Class, bytes: &[u8]) -> (&[u8], &[u8])
    ensures run { (result.0.now, result.1.now) ≡ run_of (is_of class) bytes.now }
    ensures text { IsUtf8 result.0.now }
{
    for i in 0..bytes.len() {
        if !is_of(class, bytes[i]) {
            return bytes.split_at(i);
        }
    }
    bytes.split_at(bytes.len())
}

/// The token of a word.
fn word_token(alloc: Global, word: &str) -> Mem<Token>
    ensures { IfOk result (λ token. token ≡ word_token word.now) }
{
    match keyword_of(word) {
        Some(keyword) => Ok(Token::Reserved(keyword)),
        None => Ok(Token::Word(Text::new(alloc, word)?)),
    }
}

/// The word at the front, and what stands behind it.
fn word_front(alloc: Global, bytes: &[u8]) -> Mem<Option<(Token, &[u8])>>
    ensures { IfOk result (λ found. option_map (λ x. (x.0, x.1.now)) found ≡ word_behind (run_of is_inner bytes.now)) }
{
    let (word, rest) = run_front(Class::Inner, bytes);
    let Ok(word) = str::from_utf8(word) else {
        unreachable!();
    };
    Ok(Some((word_token(alloc, word)?, rest)))
}

/// Whether a run of digits is a number.
fn is_number(digits: &[u8]) -> bool
    ensures { result ≡ is_number digits.now }
{
    match digits {
        [] => false,
        [_] => true,
        [first, _, ..] => *first != 48,
    }
}

/// What stands behind the digits of a number: nothing, or the name of an integer type.
fn suffix_of(word: &str) -> Option<Option<PType>>
    ensures { result ≡ suffix_of word.now }
{
    if word.is_empty() {
        return Some(None);
    }
    let ptype = PType::from_name(word)?;
    Some(Some(ptype))
}

/// The number at the front, and what stands behind it.
fn number_front(alloc: Global, bytes: &[u8]) -> Mem<Option<(Token, &[u8])>>
    ensures { IfOk result (λ found. option_map (λ x. (x.0, x.1.now)) found ≡ number_behind (run_of is_digit bytes.now)) }
{
    let (digits, rest) = run_front(Class::Digits, bytes);
    let (word, rest) = run_front(Class::Inner, rest);
    if !is_number(digits) {
        return Ok(None);
    }
    let Ok(digits) = str::from_utf8(digits) else {
        unreachable!();
    };
    let Ok(word) = str::from_utf8(word) else {
        unreachable!();
    };
    let Some(suffix) = suffix_of(word) else {
        return Ok(None);
    };
    Ok(Some((Token::Number(Text::new(alloc, digits)?, suffix), rest)))
}

/// The first character, and what stands behind it.
fn front(bytes: &[u8]) -> Option<(u8, &[u8])>
    ensures { option_map (λ x. (x.0, x.1.now)) result ≡ front bytes.now }
{
    match bytes {
        [] => None,
        [first, rest @ ..] => Some((*first, rest)),
    }
}

/// What stands behind a second mark.
fn behind_mark(mark: u8, bytes: &[u8]) -> Option<&[u8]>
    ensures { option_map (λ x. x.now) result ≡ behind_mark mark bytes.now }
{
    let [first, rest @ ..] = bytes else {
        return None;
    };
    if *first == mark { Some(rest) } else { None }
}

/// What stands up to the next mark, and behind it; two marks stand for one.
fn quoted_front(alloc: Global, mark: u8, bytes: &[u8]) -> Mem<Option<(Vec<u8>, &[u8])>>
    ensures { IfOk result (λ found. option_map (λ x. (x.0.items, x.1.now)) found ≡ quoted_run mark bytes.now) }
{
    let mut inner = Vec::new(alloc);
    let mut rest = bytes;
    while let Some((first, behind)) = front(rest) {
        if first == mark {
            let Some(after) = behind_mark(mark, behind) else {
                return Ok(Some((inner, behind)));
            };
            inner.push(first)?;
            rest = after;
            continue;
        }
        inner.push(first)?;
        rest = behind;
    }
    Ok(None)
}

/// The text up to the next mark, and what stands behind it; two marks stand for one.
fn quoted_text(alloc: Global, mark: u8, bytes: &[u8]) -> Mem<Option<(Text, &[u8])>>
    ensures { IfOk result (λ found. option_map (λ x. (x.0, x.1.now)) found ≡ quoted_behind (quoted_run mark bytes.now)) }
{
    let Some((inner, rest)) = quoted_front(alloc, mark, bytes)? else {
        return Ok(None);
    };
    match str::from_utf8(inner.as_slice()) {
        Ok(text) => Ok(Some((Text::new(alloc, text)?, rest))),
        Err(_) => Ok(None),
    }
}

/// The sign at the front, behind its first character, and what stands behind it.
fn sign_front(first: u8, bytes: &[u8]) -> Option<(Token, &[u8])>
    ensures { option_map (λ x. (x.0, x.1.now)) result ≡ sign_at first bytes.now }
{
    if let [second, rest @ ..] = bytes {
        if let Some(sign) = two_signs(first, *second) {
            return Some((Token::Mark(sign), rest));
        }
    }
    let sign = one_sign(first)?;
    Some((Token::Mark(sign), bytes))
}

/// The name between two `"`, behind the first, and what stands behind it.
fn name_front(alloc: Global, bytes: &[u8]) -> Mem<Option<(Token, &[u8])>>
    ensures { IfOk result (λ found. option_map (λ x. (x.0, x.1.now)) found ≡ name_behind (quoted_run 34 bytes.now)) }
{
    let Some((name, rest)) = quoted_text(alloc, 34, bytes)? else {
        return Ok(None);
    };
    Ok(Some((Token::Quoted(name), rest)))
}

/// The text between two `'`, behind the first, and what stands behind it.
fn text_front(alloc: Global, bytes: &[u8]) -> Mem<Option<(Token, &[u8])>>
    ensures { IfOk result (λ found. option_map (λ x. (x.0, x.1.now)) found ≡ text_behind (quoted_run 39 bytes.now)) }
{
    let Some((text, rest)) = quoted_text(alloc, 39, bytes)? else {
        return Ok(None);
    };
    Ok(Some((Token::Quote(text), rest)))
}

/// The token that begins with a character of no word and no number, and what stands behind it.
fn marked_front(alloc: Global, first: u8, rest: &[u8]) -> Mem<Option<(Token, &[u8])>>
    ensures { IfOk result (λ found. option_map (λ x. (x.0, x.1.now)) found ≡ marked_at first rest.now) }
{
    if first == 34 {
        return name_front(alloc, rest);
    }
    if first == 39 {
        return text_front(alloc, rest);
    }
    Ok(sign_front(first, rest))
}

/// The longest token at the front, and what stands behind it.
#[tactic(auto, unfolding(crate::specs::Tokens::token_at))]
fn token_front(alloc: Global, bytes: &[u8]) -> Mem<Option<(Token, &[u8])>>
    ensures { IfOk result (λ found. option_map (λ x. (x.0, x.1.now)) found ≡ token_at bytes.now) }
{
    let [first, rest @ ..] = bytes else {
        return Ok(None);
    };
    if is_first(*first) {
        return word_front(alloc, bytes);
    }
    if is_digit(*first) {
        return number_front(alloc, bytes);
    }
    marked_front(alloc, *first, rest)
}

/// What stands behind a character that means nothing.
fn behind_blank(bytes: &[u8]) -> Option<&[u8]>
    ensures { option_map (λ x. x.now) result ≡ behind_blank bytes.now }
{
    let [first, rest @ ..] = bytes else {
        return None;
    };
    if is_blank(*first) { Some(rest) } else { None }
}

/// The tokens of a text, and None exactly where at some place none stands.
pub fn tokens_of(alloc: Global, bytes: &[u8]) -> Mem<Option<Vec<Token>>>
    ensures { IfOk result (λ found. option_map (λ tokens. tokens.items) found ≡ tokens_of bytes.now) }
{
    let mut tokens = Vec::new(alloc);
    let mut rest = bytes;
    for _ in 0..bytes.len() {
        if rest.is_empty() {
            return Ok(Some(tokens));
        }
        if let Some(behind) = behind_blank(rest) {
            rest = behind;
            continue;
        }
        let Some((token, behind)) = token_front(alloc, rest)? else {
            return Ok(None);
        };
        tokens.push(token)?;
        rest = behind;
    }
    if rest.is_empty() {
        Ok(Some(tokens))
    } else {
        Ok(None)
    }
}
