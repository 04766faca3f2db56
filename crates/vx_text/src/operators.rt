// The operators of a query, and how tightly they bind.
ghost use Rattle.std.specs.Prelude.{◌≡◌, option_map};
ghost use Rattle.vx_text.specs.Grammar.{word_operator, sign_operator, token_operator, level_of, level_number, operator_at};

use vx_expr::Operator;
use vx_tokens::{Keyword, Sign, Token};

/// How tightly an operator binds, the loosest first.
#[derive(Clone, Copy)]
pub enum Level {
    Disjunction,
    Conjunction,
    Comparison,
    Sum,
}

/// The place of a level in the order.
fn level_number(level: Level) -> u8
    ensures { result ≡ level_number level }
{
    match level {
        Level::Disjunction => 0,
        Level::Conjunction => 1,
        Level::Comparison => 2,
        Level::Sum => 3,
    }
}

/// How tightly an operator binds.
fn level_of(operator: Operator) -> Level
    ensures { result ≡ level_of operator }
{
    match operator {
        Operator::Or => Level::Disjunction,
        Operator::And => Level::Conjunction,
        Operator::Add | Operator::Sub => Level::Sum,
        _ => Level::Comparison,
    }
}

/// The operator that a word is.
fn word_operator(word: Keyword) -> Option<Operator>
    ensures { result ≡ word_operator word }
{
    match word {
        Keyword::Or => Some(Operator::Or),
        Keyword::And => Some(Operator::And),
        _ => None,
    }
}

/// The operator that a sign is.
fn sign_operator(sign: Sign) -> Option<Operator>
    ensures { result ≡ sign_operator sign }
{
    match sign {
        Sign::Eq => Some(Operator::Eq),
        Sign::NotEq => Some(Operator::NotEq),
        Sign::Gt => Some(Operator::Gt),
        Sign::Gte => Some(Operator::Gte),
        Sign::Lt => Some(Operator::Lt),
        Sign::Lte => Some(Operator::Lte),
        Sign::Plus => Some(Operator::Add),
        Sign::Minus => Some(Operator::Sub),
        _ => None,
    }
}

/// The operator that a token is.
fn token_operator(token: &Token) -> Option<Operator>
    ensures { result ≡ token_operator token.now }
{
    match token {
        Token::Reserved(word) => word_operator(*word),
        Token::Mark(sign) => sign_operator(*sign),
        Token::Word(_) => None,
        Token::Quoted(_) => None,
        Token::Quote(_) => None,
        Token::Number(_, _) => None,
    }
}

/// The operator of this level at the front, and the tokens behind it.
#[tactic(auto, unfolding(crate::specs::Grammar::operator_at))]
pub(crate) fn operator_front(level: Level, tokens: &[Token]) -> Option<(Operator, &[Token])>
    ensures { option_map (λ x. (x.0, x.1.now)) result ≡ operator_at level tokens.now }
{
    let [first, rest @ ..] = tokens else {
        return None;
    };
    let operator = token_operator(first)?;
    if level_number(level_of(operator)) == level_number(level) {
        Some((operator, rest))
    } else {
        None
    }
}
