// What statements name, held against rows.
use crate::errors::CaseError;
use crate::rows::{is_refused, maybe_number_in, maybe_text_in, text_in};
use serde_json::Value;
use std::alloc::Global;
use vx_expr::ExprRef;
use vx_sql::{Key, Plan, table_named};
use vx_sql_forms::TypedExpr;
use vx_text::{read_query, write_query};

/// What a statement names, where that isn't what its row says.
pub(crate) fn plan_difference(
    alloc: Global,
    row: &Value,
    plan: &Plan,
) -> Result<Option<String>, CaseError> {
    if !is_named(alloc, row, plan)? {
        return Ok(Some(plan_text(alloc, plan)?));
    }
    if !is_its_table(alloc, text_in(row, "sql"), plan.table.as_str()) {
        return Ok(Some(String::from_str(alloc, "another table without the columns")?));
    }
    Ok(None)
}

/// Whether a statement names this table before the columns are known.
fn is_its_table(alloc: Global, sql: &str, table: &str) -> bool {
    match table_named(alloc, sql).ok() {
        Some(named) => named.as_str() == table,
        None => false,
    }
}

/// Whether a row says what a statement names.
fn is_named(alloc: Global, row: &Value, plan: &Plan) -> Result<bool, CaseError> {
    if is_refused(row) {
        return Ok(false);
    }
    if !is_ordered(row, plan.order.as_ref()) {
        return Ok(false);
    }
    if maybe_number_in(row, "limit") != plan.limit {
        return Ok(false);
    }
    if text_in(row, "table") != plan.table.as_str() {
        return Ok(false);
    }
    if !is_filtered(alloc, row, plan.filter.as_ref())? {
        return Ok(false);
    }
    is_expression(alloc, text_in(row, "projection"), &plan.rows.expr)
}

/// Whether a row says the key that rows are ordered by, and from which end on.
fn is_ordered(row: &Value, order: Option<&Key>) -> bool {
    let descending = row.get("descending").and_then(Value::as_bool) == Some(true);
    match (maybe_text_in(row, "key"), order) {
        (Some(name), Some(key)) => key.column.as_str() == name && key.descending == descending,
        (None, None) => !descending,
        _ => false,
    }
}

/// Whether a row says the condition that rows are taken by.
fn is_filtered(alloc: Global, row: &Value, filter: Option<&TypedExpr>) -> Result<bool, CaseError> {
    match (maybe_text_in(row, "filter"), filter) {
        (Some(query), Some(filter)) => is_expression(alloc, query, &filter.expr),
        (None, None) => Ok(true),
        _ => Ok(false),
    }
}

/// Whether an expression is that of a query.
fn is_expression(alloc: Global, query: &str, found: &ExprRef) -> Result<bool, CaseError> {
    let wanted = read_query(alloc, query)?;
    Ok(wanted == *found)
}

/// What a statement names, as a text.
fn plan_text(alloc: Global, plan: &Plan) -> Result<String, CaseError> {
    let filter = filter_text(alloc, plan.filter.as_ref())?;
    let rows = write_query(alloc, &plan.rows.expr)?;
    let order = order_text(alloc, plan.order.as_ref())?;
    let limit = limit_text(alloc, plan.limit)?;
    Ok(format!(in alloc;
        "filter {filter}, projection {rows}, {order}, {limit}, table {}",
        plan.table.as_str()
    )?)
}

/// The condition that rows are taken by, as a query.
fn filter_text(alloc: Global, filter: Option<&TypedExpr>) -> Result<String, CaseError> {
    match filter {
        Some(filter) => Ok(write_query(alloc, &filter.expr)?),
        None => Ok(String::from_str(alloc, "-")?),
    }
}

/// The key that rows are ordered by, and from which end on.
fn order_text(alloc: Global, order: Option<&Key>) -> Result<String, CaseError> {
    match order {
        Some(key) => {
            Ok(format!(in alloc;
                "key {}, descending {}",
                key.column.as_str(),
                key.descending
            )?)
        }
        None => Ok(String::from_str(alloc, "key -")?),
    }
}

/// How many rows are taken.
fn limit_text(alloc: Global, limit: Option<u64>) -> Result<String, CaseError> {
    match limit {
        Some(limit) => Ok(format!(in alloc; "limit {limit}")?),
        None => Ok(String::from_str(alloc, "limit -")?),
    }
}
