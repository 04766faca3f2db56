// The table as JSON: a list of rows, each of which holds the type of a table's rows, a statement, and what it names or how it is refused.
use crate::errors::CaseError;
use crate::plans::plan_difference;
use crate::refusals::{Told, refusal_difference, told_refusal};
use serde_json::Value;
use std::alloc::{AllocFailed, Global};
use std::rc::Rc;
use vx_dtype::{DType, Mem};
use vx_expr::LiteralExpr;
use vx_sql::{Plan, SqlError, StatementRefusal, plan};
use vx_text::read_query;

/// How the rows came out: how many statements name what their rows say, how many are refused as theirs say, and a line for each other one.
#[derive(Drop)]
pub(crate) struct Tried {
    pub(crate) named: u64,
    pub(crate) refused: u64,
    pub(crate) differences: Vec<String>,
}

/// Tries each row of a table.
pub(crate) fn try_rows(alloc: Global, text: &str) -> Result<Tried, CaseError> {
    let table = Value::from_str(alloc, text)?;
    let mut tried = Tried {
        named: 0,
        refused: 0,
        differences: Vec::new(alloc),
    };
    for row in list_of(Some(&table)) {
        try_row(alloc, row, &mut tried)?;
    }
    Ok(tried)
}

/// Tries a row.
fn try_row(alloc: Global, row: &Value, tried: &mut Tried) -> Mem<()> {
    match found_beside(alloc, row)? {
        Some(found) => Ok(tried.differences.push(beside(alloc, found, row)?)?),
        None => Ok(count(row, tried)),
    }
}

/// Counts a row that agrees.
fn count(row: &Value, tried: &mut Tried) {
    if is_refused(row) {
        tried.refused = tried.refused.saturating_add(1);
    } else {
        tried.named = tried.named.saturating_add(1);
    }
}

/// A line for a row that differs: what was found, and the row.
fn beside(alloc: Global, found: String, row: &Value) -> Mem<String> {
    let row = row.to_string(alloc)?;
    Ok(format!(in alloc; "{found} in place of {row}")?)
}

/// What was found of a row, where that isn't what the row says.
fn found_beside(alloc: Global, row: &Value) -> Mem<Option<String>> {
    match tried_alone(alloc, row) {
        Ok(found) => Ok(found),
        Err(CaseError::NoMemory) => Err(vx_dtype::NoMemory),
        Err(error) => Ok(Some(format!(in alloc; "{error}")?)),
    }
}

/// The same, or why the row can't be tried.
fn tried_alone(alloc: Global, row: &Value) -> Result<Option<String>, CaseError> {
    let columns = type_in(alloc, text_in(row, "type"))?;
    tried_over(alloc, row, &columns)
}

/// The same over a table whose rows have this type.
fn tried_over(alloc: Global, row: &Value, columns: &DType) -> Result<Option<String>, CaseError> {
    match answer_of(alloc, text_in(row, "sql"), columns)? {
        Answer::Named(plan) => plan_difference(alloc, row, &plan),
        Answer::Refused(told) => refusal_difference(alloc, row, &told),
    }
}

/// What is answered of a statement.
#[derive(Drop)]
enum Answer {
    /// It names this.
    Named(Plan),
    /// It is refused.
    Refused(Told),
}

/// What is answered of a statement over a table whose rows have this type.
fn answer_of(alloc: Global, sql: &str, columns: &DType) -> Result<Answer, CaseError> {
    match plan(alloc, sql, columns) {
        Ok(plan) => Ok(Answer::Named(plan)),
        Err(error) => told_error(alloc, sql, columns, error),
    }
}

/// What is answered of a statement that isn't taken.
fn told_error(
    alloc: Global,
    sql: &str,
    columns: &DType,
    error: SqlError,
) -> Result<Answer, CaseError> {
    match error {
        SqlError::NoMemory => Err(CaseError::NoMemory),
        SqlError::Refused(refusal) => told_shared(alloc, sql, columns, Rc::new(alloc, refusal)),
    }
}

/// The same of a refusal that may be shared.
fn told_shared(
    alloc: Global,
    sql: &str,
    columns: &DType,
    refusal: Result<Rc<StatementRefusal>, AllocFailed<StatementRefusal>>,
) -> Result<Answer, CaseError> {
    let refusal = refusal?;
    Ok(Answer::Refused(told_refusal(alloc, sql, columns, &refusal)?))
}

/// A type, as a query writes it: that of the elements of an empty list.
fn type_in(alloc: Global, dtype: &str) -> Result<DType, CaseError> {
    let query = format!(in alloc; "lit(list({dtype}), [])")?;
    let expr = read_query(alloc, query.as_str())?;
    match LiteralExpr::maybe_from(&expr) {
        Some(literal) => element_type(literal.value().dtype()),
        None => Err(CaseError::NoType),
    }
}

/// The type of the elements of lists.
fn element_type(dtype: &DType) -> Result<DType, CaseError> {
    match dtype {
        DType::List(element, _) => Ok(element.dtype().clone()?),
        _ => Err(CaseError::NoType),
    }
}

/// Whether a row says how a statement is refused.
pub(crate) fn is_refused(row: &Value) -> bool {
    row.get("refusal").is_some()
}

/// A member that is a text, none where it is null or isn't there.
pub(crate) fn maybe_text_in<'a>(row: &'a Value, name: &str) -> Option<&'a str> {
    row.get(name).and_then(Value::as_str)
}

/// A member that is a text, empty where it is none.
pub(crate) fn text_in<'a>(row: &'a Value, name: &str) -> &'a str {
    maybe_text_in(row, name).unwrap_or("")
}

/// A member that is a number, none where it is null or isn't there.
pub(crate) fn maybe_number_in(row: &Value, name: &str) -> Option<u64> {
    row.get(name).and_then(Value::as_u64)
}

/// The elements of a list, none where it is no list.
pub(crate) fn list_of(value: Option<&Value>) -> &[Value] {
    match value.and_then(Value::as_array) {
        Some(values) => values.as_slice(),
        None => &[],
    }
}
