// Queries, rule by rule of their grammar.
ghost use Rattle.std.specs.Prelude.{◌≡◌, ◌≤◌, ◌+◌, [], Some, IfOk, option_map, map, length};
ghost use Rattle.vx_dtype.specs.declared.Nullability.{Nullability};
ghost use Rattle.vx_tokens.specs.declared.tokens.Sign.TheVariants as signs;
ghost use Rattle.vx_text.specs.NamedExpressions.{and_one, and_argument, number_literal, call_of, pack_of};
ghost use Rattle.vx_text.specs.Grammar.{most_tokens, more_parts, parts, named, labelled, chain, arguments_with, all_named_with, lit_behind, column};
ghost use Rattle.vx_text.specs.Grammar.{steps, steps_behind, negative_number, nots_at};
ghost use Rattle.vx_text.specs.Grammar.{plain_call, pack_call, cast_call, word_atom, sign_atom, atom_with, post_with, operand_with, chained};
ghost use Rattle.vx_text.specs.Grammar.{compare_with, not_with, query_at, query_of};

use crate::items::item_front;
use crate::literals::{bool_literal, constant_of, number_literal, text_literal};
use crate::naming::{and_named, and_one, binary_of, call_of, cast_of, negated, pack_of};
use crate::operators::{Level, operator_front};
use crate::parts::{MOST_TOKENS, after, name_front};
use crate::steps::steps_front;
use crate::types::type_front;
use std::alloc::Global;
use vx_build::{col, root};
use vx_dtype::{FieldName, Mem, Nullability, Text};
use vx_expr::ExprRef;
use vx_tokens::{Keyword, Sign, Token};

/// The constant behind `lit`, and the tokens behind it.
#[tactic(auto, unfolding(crate::specs::Grammar::lit_behind))]
fn lit_front(alloc: Global, tokens: &[Token]) -> Mem<Option<(Option<ExprRef>, &[Token])>>
    ensures { IfOk result (λ found. option_map (λ x. (x.0, x.1.now)) found ≡ lit_behind tokens.now) }
{
    let Some(rest) = after(Sign::RoundOpen, tokens) else {
        return Ok(None);
    };
    let Some((dtype, rest)) = type_front(alloc, rest)? else {
        return Ok(None);
    };
    let Some(rest) = after(Sign::Comma, rest) else {
        return Ok(None);
    };
    let Some((value, rest)) = item_front(alloc, rest)? else {
        return Ok(None);
    };
    let Some(rest) = after(Sign::RoundClose, rest) else {
        return Ok(None);
    };
    Ok(Some((constant_of(alloc, dtype, value)?, rest)))
}

/// The number behind a minus sign, and the tokens behind it.
fn negative_front(alloc: Global, tokens: &[Token]) -> Mem<Option<(Option<ExprRef>, &[Token])>>
    ensures { IfOk result (λ found. option_map (λ x. (x.0, x.1.now)) found ≡ negative_number tokens.now) }
{
    let [first, rest @ ..] = tokens else {
        return Ok(None);
    };
    match first {
        Token::Number(digits, suffix) => {
            let number = number_literal(alloc, true, digits, *suffix)?;
            Ok(Some((number, rest)))
        }
        Token::Reserved(_) => Ok(None),
        Token::Word(_) => Ok(None),
        Token::Quoted(_) => Ok(None),
        Token::Quote(_) => Ok(None),
        Token::Mark(_) => Ok(None),
    }
}

/// How many `not` stand at the front, and the tokens behind them.
#[tactic(auto, unfolding(crate::specs::Grammar::nots_at))]
fn nots_front(tokens: &[Token]) -> (usize, &[Token])
    ensures counted { (result.0, result.1.now) ≡ nots_at tokens.now }
    ensures within { result.0 ≤ length tokens.now }
{
    let [first, rest @ ..] = tokens else {
        return (0, tokens);
    };
    if first.is_not() {
        let (count, rest) = nots_front(rest);
        (count + 1, rest)
    } else {
        (0, tokens)
    }
}

/// The query at the front with so many queries one in another at most, and the tokens behind it.
#[cycle(query)]
#[tactic(auto, unfolding(crate::specs::Grammar::query_at))]
fn query_front(
    alloc: Global,
    deep: usize,
    tokens: &[Token],
) -> Mem<Option<(Option<ExprRef>, &[Token])>>
    ensures { IfOk result (λ found. option_map (λ x. (x.0, x.1.now)) found ≡ query_at deep tokens.now) }
{
    if deep == 0 {
        return Ok(None);
    }
    chained_front(alloc, Level::Disjunction, deep - 1, tokens)
}

/// Operands of a level with its operators between them, and the tokens behind them: or = and { "or" and }, and = not { "and" not },
/// sum = post { ("+" | "-") post }
#[cycle(query)]
#[tactic(auto)]
fn chained_front(
    alloc: Global,
    level: Level,
    deep: usize,
    tokens: &[Token],
) -> Mem<Option<(Option<ExprRef>, &[Token])>>
    ensures { IfOk result (λ found. option_map (λ x. (x.0, x.1.now)) found
        ≡ chained level (operand_with level (query_at deep)) tokens.now) }
{
    let Some((left, rest)) = operand_front(alloc, level, deep, tokens)? else {
        return Ok(None);
    };
    chain_front(alloc, level, deep, MOST_TOKENS, left, rest)
}

/// { operator operand }, behind a left operand
#[cycle(query)]
#[tactic(auto, unfolding(crate::specs::Grammar::chain))]
fn chain_front<'a>(
    alloc: Global,
    level: Level,
    deep: usize,
    more: usize,
    left: Option<ExprRef>,
    tokens: &'a [Token],
) -> Mem<Option<(Option<ExprRef>, &'a [Token])>>
    requires { more ≤ 4096 }
    ensures { IfOk result (λ found. option_map (λ x. (x.0, x.1.now)) found
        ≡ chain level (operand_with level (query_at deep)) more left tokens.now) }
{
    if more == 0 {
        return Ok(Some((left, tokens)));
    }
    let Some((operator, rest)) = operator_front(level, tokens) else {
        return Ok(Some((left, tokens)));
    };
    let Some((right, rest)) = operand_front(alloc, level, deep, rest)? else {
        return Ok(None);
    };
    let left = binary_of(alloc, left, operator, right)?;
    chain_front(alloc, level, deep, more - 1, left, rest)
}

/// What stands on either side of an operator of this level, and the tokens behind it.
#[cycle(query)]
fn operand_front(
    alloc: Global,
    level: Level,
    deep: usize,
    tokens: &[Token],
) -> Mem<Option<(Option<ExprRef>, &[Token])>>
    ensures { IfOk result (λ found. option_map (λ x. (x.0, x.1.now)) found ≡ operand_with level (query_at deep) tokens.now) }
{
    match level {
        Level::Disjunction => chained_front(alloc, Level::Conjunction, deep, tokens),
        Level::Conjunction => not_front(alloc, deep, tokens),
        Level::Comparison => chained_front(alloc, Level::Sum, deep, tokens),
        Level::Sum => post_front(alloc, deep, tokens),
    }
}

/// not = "not" not | compare
#[cycle(query)]
fn not_front(
    alloc: Global,
    deep: usize,
    tokens: &[Token],
) -> Mem<Option<(Option<ExprRef>, &[Token])>>
    ensures { IfOk result (λ found. option_map (λ x. (x.0, x.1.now)) found ≡ not_with (query_at deep) tokens.now) }
{
    let (count, rest) = nots_front(tokens);
    let Some((operand, rest)) = compare_front(alloc, deep, rest)? else {
        return Ok(None);
    };
    Ok(Some((negated(alloc, count, operand)?, rest)))
}

/// compare = sum [ ("=" | "!=" | ">" | ">=" | "<" | "<=") sum ]
#[cycle(query)]
fn compare_front(
    alloc: Global,
    deep: usize,
    tokens: &[Token],
) -> Mem<Option<(Option<ExprRef>, &[Token])>>
    ensures { IfOk result (λ found. option_map (λ x. (x.0, x.1.now)) found ≡ compare_with (query_at deep) tokens.now) }
{
    let Some((left, rest)) = operand_front(alloc, Level::Comparison, deep, tokens)? else {
        return Ok(None);
    };
    let Some((operator, after)) = operator_front(Level::Comparison, rest) else {
        return Ok(Some((left, rest)));
    };
    let Some((right, rest)) = operand_front(alloc, Level::Comparison, deep, after)? else {
        return Ok(None);
    };
    Ok(Some((binary_of(alloc, left, operator, right)?, rest)))
}

/// post = atom { "." name | "{" names "}" | "~" "{" names "}" }
#[cycle(query)]
#[tactic(auto)]
fn post_front(
    alloc: Global,
    deep: usize,
    tokens: &[Token],
) -> Mem<Option<(Option<ExprRef>, &[Token])>>
    ensures { IfOk result (λ found. option_map (λ x. (x.0, x.1.now)) found ≡ post_with (query_at deep) tokens.now) }
{
    let Some((expr, rest)) = atom_front(alloc, deep, tokens)? else {
        return Ok(None);
    };
    steps_front(alloc, MOST_TOKENS, expr, rest)
}

/// The field of the row with this name.
fn column(alloc: Global, name: &Text) -> Mem<ExprRef>
    ensures { IfOk result (λ made. made ≡ column name.now) }
{
    col(alloc, FieldName::new(alloc, name.as_str())?)
}

/// The atom at the front, and the tokens behind it.
#[cycle(query)]
fn atom_front(
    alloc: Global,
    deep: usize,
    tokens: &[Token],
) -> Mem<Option<(Option<ExprRef>, &[Token])>>
    ensures { IfOk result (λ found. option_map (λ x. (x.0, x.1.now)) found ≡ atom_with (query_at deep) tokens.now) }
{
    let [first, rest @ ..] = tokens else {
        return Ok(None);
    };
    match first {
        Token::Mark(sign) => sign_atom(alloc, deep, *sign, rest),
        Token::Word(name) => Ok(Some((Some(column(alloc, name)?), rest))),
        Token::Quoted(name) => Ok(Some((Some(column(alloc, name)?), rest))),
        Token::Number(digits, suffix) => {
            let number = number_literal(alloc, false, digits, *suffix)?;
            Ok(Some((number, rest)))
        }
        Token::Quote(text) => Ok(Some((Some(text_literal(alloc, text)?), rest))),
        Token::Reserved(word) => word_atom(alloc, deep, *word, rest),
    }
}

/// The atom that begins with this sign, and the tokens behind it.
#[cycle(query)]
fn sign_atom<'a>(
    alloc: Global,
    deep: usize,
    sign: Sign,
    tokens: &'a [Token],
) -> Mem<Option<(Option<ExprRef>, &'a [Token])>>
    ensures { IfOk result (λ found. option_map (λ x. (x.0, x.1.now)) found ≡ sign_atom (query_at deep) sign tokens.now) }
{
    match sign {
        Sign::RoundOpen => {
            let Some((expr, rest)) = query_front(alloc, deep, tokens)? else {
                return Ok(None);
            };
            match after(Sign::RoundClose, rest) {
                Some(rest) => Ok(Some((expr, rest))),
                None => Ok(None),
            }
        }
        Sign::Dollar => Ok(Some((Some(root(alloc)?), tokens))),
        Sign::Minus => negative_front(alloc, tokens),
        _ => Ok(None),
    }
}

/// The atom that begins with this word, and the tokens behind it.
#[cycle(query)]
fn word_atom<'a>(
    alloc: Global,
    deep: usize,
    word: Keyword,
    tokens: &'a [Token],
) -> Mem<Option<(Option<ExprRef>, &'a [Token])>>
    ensures { IfOk result (λ found. option_map (λ x. (x.0, x.1.now)) found ≡ word_atom (query_at deep) word tokens.now) }
{
    match word {
        Keyword::True => Ok(Some((Some(bool_literal(alloc, true)?), tokens))),
        Keyword::False => Ok(Some((Some(bool_literal(alloc, false)?), tokens))),
        Keyword::Lit => lit_front(alloc, tokens),
        Keyword::Cast => cast_front(alloc, deep, tokens),
        Keyword::Pack => pack_front(alloc, deep, Nullability::NonNullable, tokens),
        Keyword::PackNull => pack_front(alloc, deep, Nullability::Nullable, tokens),
        word => call_front(alloc, deep, word, tokens),
    }
}

/// The cast behind its word, and the tokens behind it.
#[cycle(query)]
#[tactic(auto, unfolding(crate::specs::Grammar::cast_call))]
fn cast_front(
    alloc: Global,
    deep: usize,
    tokens: &[Token],
) -> Mem<Option<(Option<ExprRef>, &[Token])>>
    ensures { IfOk result (λ found. option_map (λ x. (x.0, x.1.now)) found ≡ cast_call (query_at deep) tokens.now) }
{
    let Some(rest) = after(Sign::RoundOpen, tokens) else {
        return Ok(None);
    };
    let Some((expr, rest)) = query_front(alloc, deep, rest)? else {
        return Ok(None);
    };
    let Some(rest) = after(Sign::Comma, rest) else {
        return Ok(None);
    };
    let Some((dtype, rest)) = type_front(alloc, rest)? else {
        return Ok(None);
    };
    let Some(rest) = after(Sign::RoundClose, rest) else {
        return Ok(None);
    };
    Ok(Some((cast_of(alloc, expr, dtype)?, rest)))
}

/// The call of a word behind it, and the tokens behind the call.
#[cycle(query)]
#[tactic(auto, unfolding(crate::specs::Grammar::plain_call))]
fn call_front<'a>(
    alloc: Global,
    deep: usize,
    word: Keyword,
    tokens: &'a [Token],
) -> Mem<Option<(Option<ExprRef>, &'a [Token])>>
    ensures { IfOk result (λ found. option_map (λ x. (x.0, x.1.now)) found ≡ plain_call (query_at deep) word tokens.now) }
{
    let Some(rest) = after(Sign::RoundOpen, tokens) else {
        return Ok(None);
    };
    let Some((count, arguments, rest)) = arguments_front(alloc, deep, rest)? else {
        return Ok(None);
    };
    match call_of(alloc, word, count, arguments)? {
        Some(expr) => Ok(Some((expr, rest))),
        None => Ok(None),
    }
}

/// The arguments up to a closing bracket: how many there are, and their expressions; and the tokens behind it.
#[cycle(query)]
fn arguments_front<'a>(
    alloc: Global,
    deep: usize,
    tokens: &'a [Token],
) -> Mem<Option<(usize, Option<Vec<ExprRef>>, &'a [Token])>>
    ensures { IfOk result (λ found. option_map (λ x. ((x.0, option_map (λ es. es.items) x.1), x.2.now)) found
        ≡ arguments_with (query_at deep) tokens.now) }
{
    if let Some(rest) = after(Sign::RoundClose, tokens) {
        return Ok(Some((0, Some(Vec::new(alloc)), rest)));
    }
    more_arguments(alloc, deep, MOST_TOKENS, 0, Some(Vec::new(alloc)), tokens)
}

/// Arguments, each behind a comma but the first, and the closing bracket, added to the arguments before them.
#[cycle(query)]
#[tactic(auto, unfolding(crate::specs::Grammar::more_parts))]
fn more_arguments<'a>(
    alloc: Global,
    deep: usize,
    more: usize,
    count: usize,
    arguments: Option<Vec<ExprRef>>,
    tokens: &'a [Token],
) -> Mem<Option<(usize, Option<Vec<ExprRef>>, &'a [Token])>>
    requires most { more ≤ 4096 }
    requires few { count + more ≤ 4096 }
    ensures { IfOk result (λ found. option_map (λ x. ((x.0, option_map (λ es. es.items) x.1), x.2.now)) found
        ≡ more_parts (query_at deep) and_argument signs.RoundClose more (count, option_map (λ es. es.items) arguments) tokens.now) }
{
    if more == 0 {
        return Ok(None);
    }
    let Some((expr, rest)) = query_front(alloc, deep, tokens)? else {
        return Ok(None);
    };
    let arguments = and_one(arguments, expr)?;
    if let Some(rest) = after(Sign::Comma, rest) {
        return more_arguments(alloc, deep, more - 1, count + 1, arguments, rest);
    }
    match after(Sign::RoundClose, rest) {
        Some(rest) => Ok(Some((count + 1, arguments, rest))),
        None => Ok(None),
    }
}

/// The struct of named expressions behind its word, and the tokens behind it.
#[cycle(query)]
#[tactic(auto, unfolding(crate::specs::Grammar::pack_call))]
fn pack_front(
    alloc: Global,
    deep: usize,
    nullability: Nullability,
    tokens: &[Token],
) -> Mem<Option<(Option<ExprRef>, &[Token])>>
    ensures { IfOk result (λ found. option_map (λ x. (x.0, x.1.now)) found ≡ pack_call (query_at deep) nullability tokens.now) }
{
    let Some(rest) = after(Sign::RoundOpen, tokens) else {
        return Ok(None);
    };
    let Some((exprs, rest)) = all_named_front(alloc, deep, rest)? else {
        return Ok(None);
    };
    Ok(Some((pack_of(alloc, nullability, exprs)?, rest)))
}

/// The named expressions up to a closing bracket, and the tokens behind it.
#[cycle(query)]
fn all_named_front<'a>(
    alloc: Global,
    deep: usize,
    tokens: &'a [Token],
) -> Mem<Option<(Option<Vec<(FieldName, ExprRef)>>, &'a [Token])>>
    ensures { IfOk result (λ found. option_map (λ x. (option_map (λ es. es.items) x.0, x.1.now)) found
        ≡ all_named_with (query_at deep) tokens.now) }
{
    if let Some(rest) = after(Sign::RoundClose, tokens) {
        return Ok(Some((Some(Vec::new(alloc)), rest)));
    }
    more_named(alloc, deep, MOST_TOKENS, Some(Vec::new(alloc)), tokens)
}

/// The named expression at the front, and the tokens behind it.
#[cycle(query)]
fn named_front<'a>(
    alloc: Global,
    deep: usize,
    tokens: &'a [Token],
) -> Mem<Option<(&'a Text, Option<ExprRef>, &'a [Token])>>
    ensures { IfOk result (λ found. option_map (λ x. ((x.0.now, x.1), x.2.now)) found ≡ labelled (query_at deep) tokens.now) }
{
    let Some((name, rest)) = name_front(tokens) else {
        return Ok(None);
    };
    let Some(rest) = after(Sign::Colon, rest) else {
        return Ok(None);
    };
    let Some((expr, rest)) = query_front(alloc, deep, rest)? else {
        return Ok(None);
    };
    Ok(Some((name, expr, rest)))
}

/// Named expressions, each behind a comma but the first, and the closing bracket, added to those before them.
#[cycle(query)]
#[tactic(auto, unfolding(crate::specs::Grammar::more_parts))]
fn more_named<'a>(
    alloc: Global,
    deep: usize,
    more: usize,
    exprs: Option<Vec<(FieldName, ExprRef)>>,
    tokens: &'a [Token],
) -> Mem<Option<(Option<Vec<(FieldName, ExprRef)>>, &'a [Token])>>
    requires { more ≤ 4096 }
    ensures { IfOk result (λ found. option_map (λ x. (option_map (λ es. es.items) x.0, x.1.now)) found
        ≡ more_parts (named (query_at deep)) and_one signs.RoundClose more (option_map (λ es. es.items) exprs) tokens.now) }
{
    if more == 0 {
        return Ok(None);
    }
    let Some((name, expr, rest)) = named_front(alloc, deep, tokens)? else {
        return Ok(None);
    };
    let exprs = and_named(alloc, exprs, name, expr)?;
    if let Some(rest) = after(Sign::Comma, rest) {
        return more_named(alloc, deep, more - 1, exprs, rest);
    }
    match after(Sign::RoundClose, rest) {
        Some(rest) => Ok(Some((exprs, rest))),
        None => Ok(None),
    }
}

/// What the tokens name that are a query and nothing else.
#[tactic(auto, unfolding(crate::specs::Grammar::query_of))]
pub(crate) fn query_of(alloc: Global, tokens: &[Token]) -> Mem<Option<Option<ExprRef>>>
    ensures { IfOk result (λ found. found ≡ query_of tokens.now) }
{
    match query_front(alloc, MOST_TOKENS, tokens)? {
        Some((expr, [])) => Ok(Some(expr)),
        _ => Ok(None),
    }
}
