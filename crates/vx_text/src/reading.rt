// Reading a text as an expression.
ghost use Rattle.std.specs.Prelude.{◌≡◌, Some};
ghost use Rattle.vx_text.specs.Reading.{IsQueryRead};

use crate::errors::TextError;
use crate::parts::MOST_TOKENS;
use crate::queries::query_of;
use std::alloc::Global;
use vx_expr::ExprRef;
use vx_tokens::tokens_of;

/// The most bytes that a text may have.
pub const MOST_BYTES: usize = 1_048_576;

/// The expression that a text names.
///
/// Refuses, in this order, with
///
/// - `TooLong` exactly where the text has more than 1,048,576 bytes;
/// - `BadToken` exactly where at some place of it no token stands;
/// - `TooManyTokens` exactly where it has more than 4,096 tokens;
/// - `BadQuery` exactly where these are no query of the grammar;
/// - `BadValue` exactly where a number or an item isn't a value of its type.
#[tactic(auto, unfolding(crate::specs::Reading::reading_of))]
pub fn read_query(alloc: Global, text: &str) -> Result<ExprRef, TextError>
    ensures { IsQueryRead text.now result }
{
    let bytes = text.as_bytes();
    if bytes.len() > MOST_BYTES {
        return Err(TextError::TooLong);
    }
    let Some(tokens) = tokens_of(alloc, bytes)? else {
        return Err(TextError::BadToken);
    };
    if tokens.len() > MOST_TOKENS {
        return Err(TextError::TooManyTokens);
    }
    match query_of(alloc, tokens.as_slice())? {
        Some(Some(expr)) => Ok(expr),
        Some(None) => Err(TextError::BadValue),
        None => Err(TextError::BadQuery),
    }
}
