// The bytes of the filter that a predicate of SQL names.
ghost use Rattle.std.specs.Prelude.{◌≡◌, true, false, is_some, Ok, option_map, IfOk};
ghost use Rattle.std.specs.Str.{is_utf8};
ghost use Rattle.std.specs.String.{string_bytes};
ghost use Rattle.vx_dtype.specs.Types.{Bytes};
ghost use Rattle.vx_sql_forms.specs.Views.{typed_view};
ghost use Rattle.vx_sql.specs.StatementAnswers.{plan_view};
ghost use Rattle.vx_calls.specs.Answers.{told_bytes};
ghost use Rattle.vx_calls.specs.Predicates as spec;
ghost use Rattle.vx_calls.specs.Predicates.{TellsFilterBytes};
ghost use Rattle.vx_calls.specs.Schemas.{columns_told};
ghost use Rattle.vx_calls.specs.Steps.{IsPlanOf, IsStatementOf};

use crate::errors::CallError;
use crate::schemas::schema_zones;
use crate::wire::expression_bytes;
use std::alloc::Global;
use vx_dtype::{Mem, NoMemory};
use vx_expr::ExprRef;
use vx_sql::Plan;
use vx_sql_forms::boolean;
use vx_sql_lines::{ToldError, told_plan};
use vx_zones::ZoneMap;

/// The statement whose WHERE a predicate is.
fn statement_of(alloc: Global, predicate: &str) -> Mem<String>
    ensures { IfOk result (λ text. string_bytes text ≡ spec.statement_of predicate.now) }
{
    Ok(format!(in alloc; "SELECT * FROM t WHERE {predicate}")?)
}

/// The condition by which a plan takes rows: true where it has none.
fn filter_tree(alloc: Global, plan: &Plan) -> Mem<ExprRef>
    ensures { IfOk result (λ tree. tree ≡ spec.filter_tree (option_map typed_view plan.now.filter)) }
{
    match &plan.filter {
        Some(condition) => Ok(condition.expr.clone()?),
        None => Ok(boolean(alloc, true)?.expr.clone()?),
    }
}

/// The bytes of the filter of a plan, which orders and limits nothing.
fn unordered_bytes(alloc: Global, plan: &Plan) -> Result<Vec<u8>, CallError>
    requires order { is_some plan.now.order ≡ false }
    requires limit { is_some plan.now.limit ≡ false }
    ensures { (schema predicate : Bytes) → IsPlanOf schema predicate (plan_view plan.now) → TellsFilterBytes schema predicate (told_bytes result) }
{
    match filter_tree(alloc, plan) {
        Ok(tree) => expression_bytes(alloc, &tree),
        Err(NoMemory) => Err(CallError::NoMemory),
    }
}

/// The bytes of the filter of a plan, where it orders and limits nothing.
fn plan_bytes(alloc: Global, plan: &Plan) -> Result<Vec<u8>, CallError>
    ensures { (schema predicate : Bytes) → IsPlanOf schema predicate (plan_view plan.now) → TellsFilterBytes schema predicate (told_bytes result) }
{
    if plan.order.is_some() {
        return Err(CallError::Ordered);
    }
    if plan.limit.is_some() {
        return Err(CallError::Limited);
    }
    unordered_bytes(alloc, plan)
}

/// The bytes of the filter of a statement over the columns of zones.
fn statement_bytes(alloc: Global, zones: &ZoneMap, statement: &str) -> Result<Vec<u8>, CallError>
    ensures { (schema predicate : Bytes) → IsStatementOf schema predicate zones.now.columns statement.now
        → TellsFilterBytes schema predicate (told_bytes result) }
{
    match told_plan(alloc, statement, zones.dtype()) {
        Ok(plan) => plan_bytes(alloc, &plan),
        Err(ToldError::NoMemory) => Err(CallError::NoMemory),
        Err(ToldError::Refused(line)) => Err(CallError::Statement(line)),
    }
}

/// The bytes of the filter that a predicate names over the columns of zones.
fn text_bytes(alloc: Global, zones: &ZoneMap, predicate: &str) -> Result<Vec<u8>, CallError>
    requires { is_utf8 predicate.now ≡ true }
    ensures { (schema : Bytes) → columns_told schema ≡ Ok zones.now.columns → TellsFilterBytes schema predicate.now (told_bytes result) }
{
    match statement_of(alloc, predicate) {
        Ok(statement) => statement_bytes(alloc, zones, statement.as_str()),
        Err(NoMemory) => Err(CallError::NoMemory),
    }
}

/// The bytes of the filter that a predicate, which has to be UTF-8, names over the columns of zones.
#[tactic(auto, using(crate::proofs::PredicateLemmas::known_text, crate::proofs::PredicateLemmas::no_text))]
fn predicate_bytes(alloc: Global, zones: &ZoneMap, predicate: &[u8]) -> Result<Vec<u8>, CallError>
    ensures { (schema : Bytes) → columns_told schema ≡ Ok zones.now.columns → TellsFilterBytes schema predicate.now (told_bytes result) }
{
    match str::from_utf8(predicate) {
        Ok(text) => text_bytes(alloc, zones, text),
        Err(_) => Err(CallError::NotUtf8),
    }
}

/// The wire bytes of the filter that a predicate of SQL names over the columns of a schema: the condition of the statement `SELECT * FROM t WHERE` with the
/// predicate behind it, which has to be taken whole, without ORDER BY and LIMIT. The filter is strictly typed over the columns, a boolean.
///
/// The schema is a table as standard input tells one, of which the columns alone count.
///
/// Refused, in this order, with Schema, NotUtf8, Statement, Ordered, Limited, NotSerializable and TooLong.
pub fn filter_bytes(alloc: Global, schema: &[u8], predicate: &[u8]) -> Result<Vec<u8>, CallError>
    ensures { TellsFilterBytes schema.now predicate.now (told_bytes result) }
{
    match schema_zones(alloc, schema) {
        Ok(zones) => predicate_bytes(alloc, &zones, predicate),
        Err(error) => Err(error),
    }
}
