// Items: values without their type, as a query writes them.
ghost use Rattle.std.specs.Prelude.{◌≡◌, ◌≤◌, ◌++◌, ◌∷◌, [], IfOk, Some, option_map, map};
ghost use Rattle.vx_dtype.specs.RawViews.{raw_view};
ghost use Rattle.vx_tokens.specs.declared.tokens.Sign.TheVariants as signs;
ghost use Rattle.vx_tokens.specs.Numbers.{digits_behind, number_value, signed, integer_of};
ghost use Rattle.vx_text.specs.NamedExpressions.{and_one};
ghost use Rattle.vx_text.specs.Grammar.{parts, more_parts, most_tokens, integer_item, negative_item, sign_item, word_item, item_with, item_at};
ghost use Rattle.vx_text.specs.Grammar.{item_front, list_item, struct_item};

use crate::parts::{MOST_TOKENS, after};
use std::alloc::Global;
use std::rc::Rc;
use vx_dtype::{Mem, PType, ScalarValue, Text};
use vx_tokens::{Keyword, Sign, Token, integer_of};

/// The number of these digits, which no type's name stands behind.
fn integer_item<'a>(
    negative: bool,
    digits: &Text,
    suffix: Option<PType>,
    rest: &'a [Token],
) -> Option<(Option<ScalarValue>, &'a [Token])>
    ensures { option_map (λ x. (option_map raw_view x.0, x.1.now)) result ≡ integer_item negative digits.now suffix rest.now }
{
    if suffix.is_some() {
        return None;
    }
    match integer_of(negative, digits.as_str()) {
        Some(number) => Some((Some(ScalarValue::Int(number)), rest)),
        None => Some((None, rest)),
    }
}

/// The number behind a minus sign, and the tokens behind it.
fn negative_item(tokens: &[Token]) -> Option<(Option<ScalarValue>, &[Token])>
    ensures { option_map (λ x. (option_map raw_view x.0, x.1.now)) result ≡ negative_item tokens.now }
{
    let [first, rest @ ..] = tokens else {
        return None;
    };
    match first {
        Token::Number(digits, suffix) => integer_item(true, digits, *suffix, rest),
        Token::Reserved(_) => None,
        Token::Word(_) => None,
        Token::Quoted(_) => None,
        Token::Quote(_) => None,
        Token::Mark(_) => None,
    }
}

/// The item that a reserved word is.
fn word_item(word: Keyword) -> Option<ScalarValue>
    ensures { option_map raw_view result ≡ word_item word }
{
    match word {
        Keyword::Null => Some(ScalarValue::Null),
        Keyword::True => Some(ScalarValue::Bool(true)),
        Keyword::False => Some(ScalarValue::Bool(false)),
        _ => None,
    }
}

/// A list of values with one more behind it, where there are both.
fn and_one(
    values: Option<Vec<ScalarValue>>,
    value: Option<ScalarValue>,
) -> Mem<Option<Vec<ScalarValue>>>
    ensures { IfOk result (λ made. option_map (λ xs. map raw_view xs.items) made
        ≡ and_one (option_map (λ xs. map raw_view xs.items) values) (option_map raw_view value)) }
{
    let Some(mut values) = values else {
        return Ok(None);
    };
    let Some(value) = value else {
        return Ok(None);
    };
    values.push(value)?;
    Ok(Some(values))
}

/// The list of these values, where there are values.
fn list_item(alloc: Global, values: Option<Vec<ScalarValue>>) -> Mem<Option<ScalarValue>>
    ensures { IfOk result (λ made. option_map raw_view made ≡ list_item (option_map (λ xs. map raw_view xs.items) values)) }
{
    match values {
        Some(values) => Ok(Some(ScalarValue::List(Rc::new(alloc, values)?))),
        None => Ok(None),
    }
}

/// The struct of these values, where there are values.
fn struct_item(alloc: Global, values: Option<Vec<ScalarValue>>) -> Mem<Option<ScalarValue>>
    ensures { IfOk result (λ made. option_map raw_view made ≡ struct_item (option_map (λ xs. map raw_view xs.items) values)) }
{
    match values {
        Some(values) => Ok(Some(ScalarValue::Struct(Rc::new(alloc, values)?))),
        None => Ok(None),
    }
}

/// The item at the front with so many items one in another at most, and the tokens behind it.
#[cycle(item_front)]
#[tactic(auto, unfolding(crate::specs::Grammar::item_at))]
fn item_at(
    alloc: Global,
    deep: usize,
    tokens: &[Token],
) -> Mem<Option<(Option<ScalarValue>, &[Token])>>
    ensures { IfOk result (λ found. option_map (λ x. (option_map raw_view x.0, x.1.now)) found ≡ item_at deep tokens.now) }
{
    if deep == 0 {
        return Ok(None);
    }
    item_within(alloc, deep - 1, tokens)
}

/// The item at the front, with so many items one in another at most within it, and the tokens behind it.
#[cycle(item_front)]
fn item_within(
    alloc: Global,
    deep: usize,
    tokens: &[Token],
) -> Mem<Option<(Option<ScalarValue>, &[Token])>>
    ensures { IfOk result (λ found. option_map (λ x. (option_map raw_view x.0, x.1.now)) found ≡ item_with (item_at deep) tokens.now) }
{
    let [first, rest @ ..] = tokens else {
        return Ok(None);
    };
    match first {
        Token::Reserved(word) => match word_item(*word) {
            Some(value) => Ok(Some((Some(value), rest))),
            None => Ok(None),
        },
        Token::Number(digits, suffix) => Ok(integer_item(false, digits, *suffix, rest)),
        Token::Quote(text) => Ok(Some((Some(ScalarValue::Utf8(text.clone()?)), rest))),
        Token::Mark(sign) => sign_item(alloc, deep, *sign, rest),
        Token::Word(_) => Ok(None),
        Token::Quoted(_) => Ok(None),
    }
}

/// The item that begins with this sign, and the tokens behind it.
#[cycle(item_front)]
fn sign_item<'a>(
    alloc: Global,
    deep: usize,
    sign: Sign,
    tokens: &'a [Token],
) -> Mem<Option<(Option<ScalarValue>, &'a [Token])>>
    ensures { IfOk result (λ found. option_map (λ x. (option_map raw_view x.0, x.1.now)) found ≡ sign_item (item_at deep) sign tokens.now) }
{
    match sign {
        Sign::Minus => Ok(negative_item(tokens)),
        Sign::SquareOpen => {
            let Some((values, rest)) = items_front(alloc, deep, Sign::SquareClose, tokens)? else {
                return Ok(None);
            };
            Ok(Some((list_item(alloc, values)?, rest)))
        }
        Sign::CurlyOpen => {
            let Some((values, rest)) = items_front(alloc, deep, Sign::CurlyClose, tokens)? else {
                return Ok(None);
            };
            Ok(Some((struct_item(alloc, values)?, rest)))
        }
        _ => Ok(None),
    }
}

/// The items up to a closing sign, and the tokens behind it.
#[cycle(item_front)]
#[tactic(auto)]
fn items_front<'a>(
    alloc: Global,
    deep: usize,
    close: Sign,
    tokens: &'a [Token],
) -> Mem<Option<(Option<Vec<ScalarValue>>, &'a [Token])>>
    ensures { IfOk result (λ found. option_map (λ x. (option_map (λ xs. map raw_view xs.items) x.0, x.1.now)) found
        ≡ parts (item_at deep) and_one (Some []) close tokens.now) }
{
    if let Some(rest) = after(close, tokens) {
        return Ok(Some((Some(Vec::new(alloc)), rest)));
    }
    more_items(
        alloc,
        deep,
        MOST_TOKENS,
        close,
        Some(Vec::new(alloc)),
        tokens,
    )
}

/// Items, each behind a comma but the first, and the closing sign, added to the values before them.
#[cycle(item_front)]
#[tactic(auto, unfolding(crate::specs::Grammar::more_parts))]
fn more_items<'a>(
    alloc: Global,
    deep: usize,
    more: usize,
    close: Sign,
    values: Option<Vec<ScalarValue>>,
    tokens: &'a [Token],
) -> Mem<Option<(Option<Vec<ScalarValue>>, &'a [Token])>>
    requires { more ≤ 4096 }
    ensures { IfOk result (λ found. option_map (λ x. (option_map (λ xs. map raw_view xs.items) x.0, x.1.now)) found
        ≡ more_parts (item_at deep) and_one close more (option_map (λ xs. map raw_view xs.items) values) tokens.now) }
{
    if more == 0 {
        return Ok(None);
    }
    let Some((value, rest)) = item_at(alloc, deep, tokens)? else {
        return Ok(None);
    };
    let values = and_one(values, value)?;
    if let Some(rest) = after(Sign::Comma, rest) {
        return more_items(alloc, deep, more - 1, close, values, rest);
    }
    match after(close, rest) {
        Some(rest) => Ok(Some((values, rest))),
        None => Ok(None),
    }
}

/// The item at the front, and the tokens behind it.
#[tactic(auto)]
pub(crate) fn item_front(
    alloc: Global,
    tokens: &[Token],
) -> Mem<Option<(Option<ScalarValue>, &[Token])>>
    ensures { IfOk result (λ found. option_map (λ x. (option_map raw_view x.0, x.1.now)) found ≡ item_front tokens.now) }
{
    item_at(alloc, MOST_TOKENS, tokens)
}
