// Names, and the signs between parts.
ghost use Rattle.std.specs.Prelude.{◌≡◌, [], IfOk, option_map, map, suc};
ghost use Rattle.vx_tokens.specs.declared.tokens.Sign.TheVariants as signs;
ghost use Rattle.vx_text.specs.Grammar.{after, name_at, names_at, more_parts, and_then, most_tokens};

use std::alloc::Global;
use vx_dtype::{FieldName, Mem, Text};
use vx_tokens::{Sign, Token};

/// The most tokens that a query has, and so the most parts of any kind one behind another, or one in another.
pub(crate) const MOST_TOKENS: usize = 4096;

/// The tokens behind a sign at the front.
#[tactic(auto, unfolding(crate::specs::Grammar::after))]
pub(crate) fn after(sign: Sign, tokens: &[Token]) -> Option<&[Token]>
    ensures { option_map (λ rest. rest.now) result ≡ after sign tokens.now }
{
    let [first, rest @ ..] = tokens else {
        return None;
    };
    if first.is_sign(sign) {
        Some(rest)
    } else {
        None
    }
}

/// The name at the front, and the tokens behind it.
#[tactic(auto, unfolding(crate::specs::Grammar::name_at))]
pub(crate) fn name_front(tokens: &[Token]) -> Option<(&Text, &[Token])>
    ensures { option_map (λ x. (x.0.now, x.1.now)) result ≡ name_at tokens.now }
{
    let [first, rest @ ..] = tokens else {
        return None;
    };
    match first {
        Token::Word(name) => Some((name, rest)),
        Token::Quoted(name) => Some((name, rest)),
        Token::Reserved(_) => None,
        Token::Quote(_) => None,
        Token::Number(_, _) => None,
        Token::Mark(_) => None,
    }
}

/// Names, each behind a comma but the first, and the closing brace, added to the names before them.
#[tactic(auto, unfolding(crate::specs::Grammar::more_parts))]
fn more_names(
    alloc: Global,
    more: usize,
    mut names: Vec<FieldName>,
    tokens: &[Token],
) -> Mem<Option<(Vec<FieldName>, &[Token])>>
    ensures { IfOk result (λ found. option_map (λ x. (x.0.items, x.1.now)) found
        ≡ more_parts name_at and_then signs.CurlyClose more names.items tokens.now) }
{
    if more == 0 {
        return Ok(None);
    }
    let Some((name, rest)) = name_front(tokens) else {
        return Ok(None);
    };
    names.push(FieldName::new(alloc, name.as_str())?)?;
    if let Some(rest) = after(Sign::Comma, rest) {
        return more_names(alloc, more - 1, names, rest);
    }
    match after(Sign::CurlyClose, rest) {
        Some(rest) => Ok(Some((names, rest))),
        None => Ok(None),
    }
}

/// The names up to a closing brace, and the tokens behind it.
#[tactic(auto)]
pub(crate) fn names_front(
    alloc: Global,
    tokens: &[Token],
) -> Mem<Option<(Vec<FieldName>, &[Token])>>
    ensures { IfOk result (λ found. option_map (λ x. (x.0.items, x.1.now)) found ≡ names_at tokens.now) }
{
    if let Some(rest) = after(Sign::CurlyClose, tokens) {
        return Ok(Some((Vec::new(alloc), rest)));
    }
    more_names(alloc, MOST_TOKENS, Vec::new(alloc), tokens)
}
