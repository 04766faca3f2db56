// Columns, made of other columns by the calls that a row names.
ghost use Rattle.std.specs.Prelude.{◌≡◌, length};

use crate::column_values::{names_in, of_told, structs, type_in, values_in};
use crate::errors::CaseError;
use crate::rows::{list_in, text_in};
use serde_json::Value;
use std::alloc::Global;
use vx_column::ColumnRef;
use vx_dtype::{BetweenOptions, CompareOperator, DType, FieldName, StrictComparison};
use vx_kernels::{
    and_kleene, between, cast, checked_add, checked_sub, compare, invert, is_null, like,
    list_contains, or_kleene,
};
use vx_typing::{equal_plain, is_bool, is_text, takes_cast};

/// The columns that words tell, each made of words within, of so many levels at most.
#[cycle(made)]
pub(crate) fn all_made(
    alloc: Global,
    levels: usize,
    words: &Value,
) -> Result<Vec<ColumnRef>, CaseError> {
    let mut columns = Vec::new(alloc);
    for part in list_in(words, "of") {
        columns.push(made(alloc, levels, part)?)?;
    }
    Ok(columns)
}

/// The column that words tell.
#[cycle(made)]
fn made(alloc: Global, levels: usize, words: &Value) -> Result<ColumnRef, CaseError> {
    if levels == 0 {
        return Err(CaseError::NotAsked);
    }
    let columns = all_made(alloc, levels - 1, words)?;
    match text_in(words, "call") {
        "struct" => structs(alloc, words, columns),
        call => of_columns(alloc, words, call, columns.as_slice()),
    }
}

/// What a call makes of columns.
fn of_columns(
    alloc: Global,
    words: &Value,
    call: &str,
    columns: &[ColumnRef],
) -> Result<ColumnRef, CaseError> {
    match columns {
        [] => of_told(alloc, words),
        [column] => of_one(alloc, words, column),
        [left, right] => of_two(alloc, call, left, right),
        [column, lower, upper] => ranged(alloc, words, column, lower, upper),
        _ => Err(CaseError::NotAsked),
    }
}

/// What a call makes of a column.
fn of_one(alloc: Global, words: &Value, column: &ColumnRef) -> Result<ColumnRef, CaseError> {
    match text_in(words, "call") {
        "clone" => Ok(column.clone()?),
        "not" => negated(alloc, column),
        "is_null" => Ok(is_null(alloc, column)?),
        "cast" => cast_to(alloc, column, text_in(words, "type")),
        "field" => field_of(alloc, column, text_in(words, "name")),
        "project" => projected(alloc, column, words),
        "append" => appended(
            alloc,
            column,
            text_in(words, "type"),
            text_in(words, "behind"),
        ),
        _ => Err(CaseError::NotAsked),
    }
}

/// The negation of booleans.
fn negated(alloc: Global, column: &ColumnRef) -> Result<ColumnRef, CaseError> {
    if !is_bool(column.dtype()) {
        return Err(CaseError::NotAsked);
    }
    Ok(invert(alloc, column)?)
}

/// Values in another type.
fn cast_to(alloc: Global, column: &ColumnRef, dtype: &str) -> Result<ColumnRef, CaseError> {
    let target = type_in(alloc, dtype)?;
    let made = cast_into(alloc, column, &target);
    drop(target);
    made
}

/// Values in another type.
fn cast_into(alloc: Global, column: &ColumnRef, target: &DType) -> Result<ColumnRef, CaseError> {
    if !takes_cast(column.dtype(), target) {
        return Err(CaseError::NotAsked);
    }
    Ok(cast(alloc, column, target)?)
}

/// A field of structs.
fn field_of(alloc: Global, column: &ColumnRef, name: &str) -> Result<ColumnRef, CaseError> {
    if !column.dtype().is_struct() {
        return Err(CaseError::NotAsked);
    }
    Ok(column.field(alloc, &FieldName::new(alloc, name)?)?)
}

/// Structs of some of their fields.
fn projected(alloc: Global, column: &ColumnRef, words: &Value) -> Result<ColumnRef, CaseError> {
    if !column.dtype().is_struct() {
        return Err(CaseError::NotAsked);
    }
    Ok(column.project(alloc, &names_in(alloc, words)?)?)
}

/// The column of values of a type with those of a column behind them.
fn appended(
    alloc: Global,
    column: &ColumnRef,
    dtype: &str,
    behind: &str,
) -> Result<ColumnRef, CaseError> {
    let mut values = values_in(alloc, dtype, behind)?;
    column.append_to(alloc, &mut values)?;
    Ok(ColumnRef::of_values(alloc, column.dtype().clone()?, values)?)
}

/// What a call makes of two columns.
fn of_two(
    alloc: Global,
    call: &str,
    left: &ColumnRef,
    right: &ColumnRef,
) -> Result<ColumnRef, CaseError> {
    if left.len() != right.len() {
        return Err(CaseError::NotAsked);
    }
    if let Some(operator) = operator_named(call) {
        return compared(alloc, operator, left, right);
    }
    match call {
        "and" | "or" => connected(alloc, call, left, right),
        "filter" | "mask" => kept(alloc, call, left, right),
        "+" | "-" => totalled(alloc, call, left, right),
        "contains" => held(alloc, left, right),
        _ => matched(alloc, call, left, right),
    }
}

/// The comparison of a sign.
fn operator_named(sign: &str) -> Option<CompareOperator> {
    match sign {
        "=" => Some(CompareOperator::Eq),
        "!=" => Some(CompareOperator::NotEq),
        ">" => Some(CompareOperator::Gt),
        ">=" => Some(CompareOperator::Gte),
        "<" => Some(CompareOperator::Lt),
        "<=" => Some(CompareOperator::Lte),
        _ => None,
    }
}

/// How plain values compare.
fn compared(
    alloc: Global,
    operator: CompareOperator,
    left: &ColumnRef,
    right: &ColumnRef,
) -> Result<ColumnRef, CaseError>
    requires { length left.now.rows ≡ length right.now.rows }
{
    if !equal_plain(left.dtype(), right.dtype()) {
        return Err(CaseError::NotAsked);
    }
    Ok(compare(alloc, left, right, operator)?)
}

/// Both of two booleans, or one of them.
fn connected(
    alloc: Global,
    call: &str,
    left: &ColumnRef,
    right: &ColumnRef,
) -> Result<ColumnRef, CaseError>
    requires { length left.now.rows ≡ length right.now.rows }
{
    if !(is_bool(left.dtype()) && is_bool(right.dtype())) {
        return Err(CaseError::NotAsked);
    }
    match call {
        "and" => Ok(and_kleene(alloc, left, right)?),
        _ => Ok(or_kleene(alloc, left, right)?),
    }
}

/// The values where booleans are true, or all with nulls there.
fn kept(
    alloc: Global,
    call: &str,
    column: &ColumnRef,
    truths: &ColumnRef,
) -> Result<ColumnRef, CaseError>
    requires { length column.now.rows ≡ length truths.now.rows }
{
    if !is_bool(truths.dtype()) {
        return Err(CaseError::NotAsked);
    }
    match call {
        "filter" => Ok(column.filter(alloc, truths)?),
        _ => Ok(column.mask(alloc, truths)?),
    }
}

/// Sums or differences.
fn totalled(
    alloc: Global,
    call: &str,
    left: &ColumnRef,
    right: &ColumnRef,
) -> Result<ColumnRef, CaseError>
    requires { length left.now.rows ≡ length right.now.rows }
{
    if !left.dtype().is_primitive() {
        return Err(CaseError::NotAsked);
    }
    if !left.dtype().eq_ignore_nullability(right.dtype()) {
        return Err(CaseError::NotAsked);
    }
    match call {
        "+" => Ok(checked_add(alloc, left, right)?),
        _ => Ok(checked_sub(alloc, left, right)?),
    }
}

/// Whether lists hold values.
fn held(alloc: Global, list: &ColumnRef, value: &ColumnRef) -> Result<ColumnRef, CaseError>
    requires { length list.now.rows ≡ length value.now.rows }
{
    let DType::List(element, _) = list.dtype() else {
        return Err(CaseError::NotAsked);
    };
    if !equal_plain(element.dtype(), value.dtype()) {
        return Err(CaseError::NotAsked);
    }
    Ok(list_contains(alloc, list, value)?)
}

/// Whether texts match patterns, or don't.
fn matched(
    alloc: Global,
    call: &str,
    text: &ColumnRef,
    pattern: &ColumnRef,
) -> Result<ColumnRef, CaseError>
    requires { length text.now.rows ≡ length pattern.now.rows }
{
    if !(is_text(text.dtype()) && is_text(pattern.dtype())) {
        return Err(CaseError::NotAsked);
    }
    let negated = call == "not_like" || call == "not_ilike";
    let case_insensitive = call == "ilike" || call == "not_ilike";
    Ok(like(alloc, text, pattern, negated, case_insensitive)?)
}

/// Whether values lie between bounds.
fn ranged(
    alloc: Global,
    words: &Value,
    column: &ColumnRef,
    lower: &ColumnRef,
    upper: &ColumnRef,
) -> Result<ColumnRef, CaseError> {
    if column.len() != lower.len() {
        return Err(CaseError::NotAsked);
    }
    if column.len() != upper.len() {
        return Err(CaseError::NotAsked);
    }
    let dtype = column.dtype();
    if !(equal_plain(dtype, lower.dtype()) && equal_plain(dtype, upper.dtype())) {
        return Err(CaseError::NotAsked);
    }
    let options = BetweenOptions {
        lower_strict: strictness(text_in(words, "lower")),
        upper_strict: strictness(text_in(words, "upper")),
    };
    Ok(between(alloc, column, lower, upper, options)?)
}

/// Whether a bound is strict, by the sign that stands beside it.
fn strictness(sign: &str) -> StrictComparison {
    match sign {
        "<" => StrictComparison::Strict,
        _ => StrictComparison::NonStrict,
    }
}
