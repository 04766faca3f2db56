// The steps into an expression that stand behind it: a field, or a choice of fields.
ghost use Rattle.std.specs.Prelude.{◌≡◌, IfOk, option_map};
ghost use Rattle.vx_text.specs.Grammar.{dot_step, include_step, exclude_step, step_of, token_step, step_at, step_with, steps};

use crate::naming::{excluded, field_of, included};
use crate::parts::{after, name_front, names_front};
use std::alloc::Global;
use vx_dtype::Mem;
use vx_expr::ExprRef;
use vx_tokens::{Sign, Token};

/// A step into an expression: a field, some of the fields, or all but some.
#[derive(Clone, Copy)]
pub enum Step {
    Field,
    Include,
    Exclude,
}

/// The step that a sign begins.
fn step_of(sign: Sign) -> Option<Step>
    ensures { result ≡ step_of sign }
{
    match sign {
        Sign::Dot => Some(Step::Field),
        Sign::CurlyOpen => Some(Step::Include),
        Sign::Tilde => Some(Step::Exclude),
        _ => None,
    }
}

/// The step that a token begins.
fn token_step(token: &Token) -> Option<Step>
    ensures { result ≡ token_step token.now }
{
    match token {
        Token::Mark(sign) => step_of(*sign),
        Token::Reserved(_) => None,
        Token::Word(_) => None,
        Token::Quoted(_) => None,
        Token::Quote(_) => None,
        Token::Number(_, _) => None,
    }
}

/// The step that begins at the front, and the tokens behind its first.
#[tactic(auto, unfolding(crate::specs::Grammar::step_at))]
fn step_at(tokens: &[Token]) -> Option<(Step, &[Token])>
    ensures { option_map (λ x. (x.0, x.1.now)) result ≡ step_at tokens.now }
{
    let [first, rest @ ..] = tokens else {
        return None;
    };
    let step = token_step(first)?;
    Some((step, rest))
}

/// The field behind a dot, and the tokens behind it.
fn dot_front(
    alloc: Global,
    expr: Option<ExprRef>,
    tokens: &[Token],
) -> Mem<Option<(Option<ExprRef>, &[Token])>>
    ensures { IfOk result (λ found. option_map (λ x. (x.0, x.1.now)) found ≡ dot_step expr tokens.now) }
{
    let Some((name, rest)) = name_front(tokens) else {
        return Ok(None);
    };
    Ok(Some((field_of(alloc, expr, name)?, rest)))
}

/// The chosen fields behind a brace, and the tokens behind it.
fn include_front(
    alloc: Global,
    expr: Option<ExprRef>,
    tokens: &[Token],
) -> Mem<Option<(Option<ExprRef>, &[Token])>>
    ensures { IfOk result (λ found. option_map (λ x. (x.0, x.1.now)) found ≡ include_step expr tokens.now) }
{
    let Some((names, rest)) = names_front(alloc, tokens)? else {
        return Ok(None);
    };
    Ok(Some((included(alloc, expr, names)?, rest)))
}

/// The fields that are left out, behind a tilde, and the tokens behind them.
fn exclude_front(
    alloc: Global,
    expr: Option<ExprRef>,
    tokens: &[Token],
) -> Mem<Option<(Option<ExprRef>, &[Token])>>
    ensures { IfOk result (λ found. option_map (λ x. (x.0, x.1.now)) found ≡ exclude_step expr tokens.now) }
{
    let Some(rest) = after(Sign::CurlyOpen, tokens) else {
        return Ok(None);
    };
    let Some((names, rest)) = names_front(alloc, rest)? else {
        return Ok(None);
    };
    Ok(Some((excluded(alloc, expr, names)?, rest)))
}

/// The step whose first sign stood at the front, and the tokens behind it.
fn step_front<'a>(
    alloc: Global,
    step: Step,
    expr: Option<ExprRef>,
    tokens: &'a [Token],
) -> Mem<Option<(Option<ExprRef>, &'a [Token])>>
    ensures { IfOk result (λ found. option_map (λ x. (x.0, x.1.now)) found ≡ step_with step expr tokens.now) }
{
    match step {
        Step::Field => dot_front(alloc, expr, tokens),
        Step::Include => include_front(alloc, expr, tokens),
        Step::Exclude => exclude_front(alloc, expr, tokens),
    }
}

/// An expression with the steps into it that stand behind it, so many at most, and the tokens behind them.
#[tactic(auto, unfolding(crate::specs::Grammar::steps))]
pub(crate) fn steps_front<'a>(
    alloc: Global,
    more: usize,
    expr: Option<ExprRef>,
    tokens: &'a [Token],
) -> Mem<Option<(Option<ExprRef>, &'a [Token])>>
    ensures { IfOk result (λ found. option_map (λ x. (x.0, x.1.now)) found ≡ steps more expr tokens.now) }
{
    if more == 0 {
        return Ok(Some((expr, tokens)));
    }
    let Some((step, rest)) = step_at(tokens) else {
        return Ok(Some((expr, tokens)));
    };
    let Some((expr, rest)) = step_front(alloc, step, expr, rest)? else {
        return Ok(None);
    };
    steps_front(alloc, more - 1, expr, rest)
}
