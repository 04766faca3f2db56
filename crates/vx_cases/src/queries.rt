// Queries: the expressions that they name, and the queries that expressions are written as.
use std::alloc::Global;
use vx_dtype::{CompareOperator, DType, Mem, NoMemory, Nullability};
use vx_expr::{DynamicComparisonExpr, ExprRef, NotExpr};
use vx_text::{TextError, read_query, write_query};
use vx_tokens::tokens_of;

/// The compact text of the expression that a query names, or its refusal.
pub(crate) fn read(alloc: Global, query: &str) -> Mem<String> {
    match read_query(alloc, query) {
        Ok(expr) => expr.compact(alloc),
        Err(TextError::NoMemory) => Err(NoMemory),
        Err(error) => Ok(format!(in alloc; "{error}")?),
    }
}

/// The tokens of a query, or `None`.
pub(crate) fn tokens(alloc: Global, query: &str) -> Mem<String> {
    match tokens_of(alloc, query.as_bytes())? {
        Some(tokens) => Ok(format!(in alloc; "{tokens:?}")?),
        None => Ok(String::from_str(alloc, "None")?),
    }
}

/// The query that the expression which a query names is written as, or a refusal.
pub(crate) fn read_and_written(alloc: Global, query: &str) -> Mem<String> {
    match read_query(alloc, query) {
        Ok(expr) => written(alloc, &expr),
        Err(TextError::NoMemory) => Err(NoMemory),
        Err(error) => Ok(format!(in alloc; "{error}")?),
    }
}

/// The query that an expression is written as, and behind it what is read where that isn't the expression; or the refusal to write it.
pub(crate) fn written(alloc: Global, expr: &ExprRef) -> Mem<String> {
    match write_query(alloc, expr) {
        Ok(text) => checked(alloc, expr, text),
        Err(TextError::NoMemory) => Err(NoMemory),
        Err(error) => Ok(format!(in alloc; "{error}")?),
    }
}

/// A query, and behind it what is read where that isn't the expression.
fn checked(alloc: Global, expr: &ExprRef, query: String) -> Mem<String> {
    match read_query(alloc, query.as_str()) {
        Ok(other) => compared(alloc, expr, query, &other),
        Err(TextError::NoMemory) => Err(NoMemory),
        Err(error) => Ok(format!(in alloc; "{query}, refused with {error}")?),
    }
}

/// A query, and behind it the expression that is read, where it is another one.
fn compared(alloc: Global, expr: &ExprRef, query: String, read: &ExprRef) -> Mem<String> {
    if *read == *expr {
        return Ok(query);
    }
    Ok(format!(in alloc; "{query}, read as {read}")?)
}

/// The same of a comparison of an expression with a slot, exchanged.
pub(crate) fn written_dynamic(alloc: Global, expr: &ExprRef) -> Mem<String> {
    let dtype = DType::Bool(Nullability::NonNullable);
    let compared = DynamicComparisonExpr::new_expr(
        alloc,
        expr.clone()?,
        CompareOperator::Eq,
        0,
        dtype,
        true,
    )?;
    written(alloc, &NotExpr::new_expr(alloc, compared)?)
}
