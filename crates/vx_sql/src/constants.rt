// Constants, texts and names of types, as SQL writes them.
ghost use Rattle.std.specs.Prelude.{◌≡◌, ◌<◌, ◌^◌, map, option_map, IfOk, IfSome};
ghost use Rattle.std.specs.List.{list_all};
ghost use Rattle.std.specs.Char.{is_ascii_digit};
ghost use Rattle.vx_dtype.specs.Texts.{integer_named};
ghost use Rattle.sqlite_ast.specs.declared.Expr.{out-Expr};
ghost use Rattle.vx_dtype.specs.RawViews.{raw_view};
ghost use Rattle.vx_dtype.specs.TypeViews.{type_view};
ghost use Rattle.vx_dtype.specs.declared.Nullability.{Nullability};
ghost use Rattle.vx_laws_statements.specs.Constants as spec;
ghost use Rattle.vx_laws_statements.specs.Refusals as refusals;
ghost use Rattle.vx_sql.specs.Answers.{AnswersBy, refusal_view};

use crate::refusals::{ExpressionError, Refusal};
use sqlite_ast::{Expr, Unary};
use sqlite_value::value::Bytes;
use std::alloc::Global;
use vx_dtype::{DType, Mem, Nullability, PType, ScalarValue, Text};

/// The same bytes once more.
pub(crate) fn copy_of(alloc: Global, bytes: &Bytes) -> Mem<Bytes>
    ensures { IfOk result (λ copy. copy ≡ bytes.now) }
{
    Ok(Bytes::from_slice(alloc, bytes.as_slice())?)
}

/// Bytes as a text. Text exactly where they aren't UTF-8.
#[tactic(auto, using(crate::proofs::Texts::known_text, crate::proofs::Texts::no_text))]
pub(crate) fn text_of(alloc: Global, bytes: &[u8]) -> Result<Text, ExpressionError>
    ensures { AnswersBy (λ s. s) (spec.text_of bytes.now) result }
{
    match str::from_utf8(bytes) {
        Ok(text) => Ok(Text::new(alloc, text)?),
        Err(_) => Err(ExpressionError::Refused(Refusal::Text(Bytes::from_slice(alloc, bytes)?))),
    }
}

fn are_digits(bytes: &[u8]) -> bool
    ensures { result ≡ list_all is_ascii_digit bytes.now }
{
    bytes.iter().all(|b| b.is_ascii_digit())
}

/// The numbers that are read stay below this one.
const MOST: u128 = 1 << 120;

/// The number of decimal digits, and None from 2^120 on.
#[tactic(auto, unfolding(vx_laws_statements::specs::Constants::digits_behind))]
fn decimal(digits: &[u8]) -> Option<u128>
    ensures value { result ≡ spec.digits_behind 0 digits.now }
    ensures within { IfSome result (λ n. n < 2 ^ 120) }
{
    let mut found: u128 = 0;
    let mut left = digits;
    while let [digit, rest @ ..] = left {
        let more = 10 * found + u128::from(digit.saturating_sub(48));
        if more >= MOST {
            return None;
        }
        found = more;
        left = rest;
    }
    Some(found)
}

/// The number, with a minus sign before it or without.
fn signed(negative: bool, n: u128) -> i128
    requires { n < 2 ^ 120 }
    ensures { result ≡ spec.signed negative n }
{
    let number = n as i128;
    if negative { -number } else { number }
}

/// The number of decimal digits. Hexadecimal exactly where one of them is no digit, and Integer where the number is 2^120 or more.
pub(crate) fn number_of(
    alloc: Global,
    negative: bool,
    digits: &[u8],
) -> Result<ScalarValue, ExpressionError>
    ensures { AnswersBy raw_view (spec.number_of negative digits.now) result }
{
    if !are_digits(digits) {
        return Err(ExpressionError::Refused(Refusal::Hexadecimal(Bytes::from_slice(
            alloc, digits,
        )?)));
    }
    match decimal(digits) {
        Some(number) => Ok(ScalarValue::Int(signed(negative, number))),
        None => Err(ExpressionError::Refused(Refusal::Integer(Bytes::from_slice(alloc, digits)?))),
    }
}

/// The number behind a sign. Constant exactly where the operand is no number.
fn signed_at(alloc: Global, negative: bool, operand: &Expr) -> Result<ScalarValue, ExpressionError>
    ensures { AnswersBy raw_view (spec.signed_at negative (out-Expr operand.now)) result }
{
    match operand {
        Expr::Integer(digits) => number_of(alloc, negative, digits.as_slice()),
        _ => Err(ExpressionError::Refused(Refusal::Constant)),
    }
}

/// The constant behind an operator.
fn signed_constant(alloc: Global, op: Unary, operand: &Expr) -> Result<ScalarValue, ExpressionError>
    ensures { AnswersBy raw_view (spec.signed_constant op operand.now) result }
{
    match op {
        Unary::Minus => signed_at(alloc, true, operand),
        Unary::Plus => signed_at(alloc, false, operand),
        _ => Err(ExpressionError::Refused(Refusal::Constant)),
    }
}

/// A column is no constant.
fn listed_column(alloc: Global, owner: &Option<Bytes>, name: &Bytes) -> Mem<Refusal>
    ensures { IfOk result (λ refusal. refusal_view refusal ≡ refusals.listed_column owner.now name.now) }
{
    let owner = match owner {
        Some(owner) => Some(copy_of(alloc, owner)?),
        None => None,
    };
    Ok(Refusal::ListedColumn(owner, copy_of(alloc, name)?))
}

/// The constant that an expression is. ListedColumn exactly where it is a column or a field of one.
#[tactic(auto, unfolding(vx_laws_statements::specs::Constants::constant_of))]
pub(crate) fn constant_of(alloc: Global, e: &Expr) -> Result<ScalarValue, ExpressionError>
    ensures { AnswersBy raw_view (spec.constant_of e.now) result }
{
    match e {
        Expr::Null => Ok(ScalarValue::Null),
        Expr::Integer(digits) => number_of(alloc, false, digits.as_slice()),
        Expr::Text(bytes) => Ok(ScalarValue::Utf8(text_of(alloc, bytes.as_slice())?)),
        Expr::Truth(_, value) => Ok(ScalarValue::Bool(*value)),
        Expr::Unary(sign, operand) => signed_constant(alloc, *sign, operand.get()),
        Expr::Column(owner, name) => {
            Err(ExpressionError::Refused(listed_column(alloc, owner, name)?))
        }
        _ => Err(ExpressionError::Refused(Refusal::Constant)),
    }
}

/// The constants of a list.
pub(crate) fn constants_of(
    alloc: Global,
    mut members: &[Expr],
) -> Result<Vec<ScalarValue>, ExpressionError>
    ensures { AnswersBy (λ v. map raw_view v.items) (spec.constants_of members.entry.now) result }
{
    let mut found = Vec::new(alloc);
    while let [member, rest @ ..] = members {
        found.push(constant_of(alloc, member)?)?;
        members = rest;
    }
    Ok(found)
}

fn plain_named(n: Nullability, name: &[u8]) -> Option<DType>
    ensures { option_map type_view result ≡ spec.plain_named n name.now }
{
    if name == b"bool".as_slice() {
        return Some(DType::Bool(n));
    }
    if name == b"utf8".as_slice() {
        return Some(DType::Utf8(n));
    }
    Some(DType::Primitive(integer_named(name)?, n))
}

#[tactic(auto, unfolding(vx_dtype::specs::Texts::integer_named))]
fn integer_named(name: &[u8]) -> Option<PType>
    ensures { result ≡ integer_named name.now }
{
    if name == b"u8".as_slice() {
        return Some(PType::U8);
    }
    if name == b"u16".as_slice() {
        return Some(PType::U16);
    }
    if name == b"u32".as_slice() {
        return Some(PType::U32);
    }
    if name == b"u64".as_slice() {
        return Some(PType::U64);
    }
    if name == b"i8".as_slice() {
        return Some(PType::I8);
    }
    if name == b"i16".as_slice() {
        return Some(PType::I16);
    }
    if name == b"i32".as_slice() {
        return Some(PType::I32);
    }
    if name == b"i64".as_slice() {
        return Some(PType::I64);
    }
    None
}

/// The type of a name, nullable with `?` behind it.
pub(crate) fn type_named(alloc: Global, name: &[u8]) -> Result<DType, ExpressionError>
    ensures { AnswersBy type_view (spec.type_named name.now) result }
{
    let found = if !name.is_empty() && name[name.len() - 1] == b'?' {
        plain_named(Nullability::Nullable, &name[..name.len() - 1])
    } else {
        plain_named(Nullability::NonNullable, name)
    };
    match found {
        Some(dtype) => Ok(dtype),
        None => Err(ExpressionError::Refused(Refusal::Type(Bytes::from_slice(alloc, name)?))),
    }
}
