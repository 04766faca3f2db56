// What a text of SQL names over a table.
ghost use Rattle.std.specs.Prelude.{◌≡◌, ◌==◌, length, position};
ghost use Rattle.vx_dtype.specs.TypeViews.{type_view};
ghost use Rattle.sqlite_syntax.specs.Statement.{parse};
ghost use Rattle.vx_laws_statements.specs.Refusals.{unread, refused_as};
ghost use Rattle.vx_laws_statements.specs.Statements as spec;
ghost use Rattle.vx_sql.specs.StatementAnswers.{AnswersStatement, plan_view};

use crate::clauses::{filter_of, limit_of, order_of, plain_from, table_of};
use crate::plans::Plan;
use crate::select_lists::rows_of;
use crate::statement_refusals::{SqlError, StatementRefusal};
use sqlite_ast::{Core, Select, Statement};
use sqlite_syntax::error::ParseError;
use sqlite_syntax::{Parsed, parse};
use std::alloc::Global;
use vx_dtype::DType;

/// Refuses what isn't taken of a SELECT without its ending.
fn plain_core(alloc: Global, core: &Core) -> Result<(), SqlError>
    ensures { AnswersStatement (λ u. u) (spec.plain_core core.now) result }
{
    plain_from(alloc, core.from.as_slice())?;
    if core.distinct {
        return Err(SqlError::Refused(StatementRefusal::Distinct));
    }
    if core.group.len() != 0 {
        return Err(SqlError::Refused(StatementRefusal::Group));
    }
    if core.having.is_some() {
        return Err(SqlError::Refused(StatementRefusal::Having));
    }
    Ok(())
}

/// Refuses what isn't taken of a SELECT.
#[tactic(auto, unfolding(vx_laws_statements::specs::Statements::plain_select))]
pub(crate) fn plain_select(alloc: Global, select: &Select) -> Result<(), SqlError>
    ensures { AnswersStatement (λ u. u) (spec.plain_select select.now) result }
{
    if select.with.len() != 0 {
        return Err(SqlError::Refused(StatementRefusal::With));
    }
    if select.others.len() != 0 {
        return Err(SqlError::Refused(StatementRefusal::Compound));
    }
    plain_core(alloc, &select.first)?;
    if select.offset.is_some() {
        return Err(SqlError::Refused(StatementRefusal::Offset));
    }
    Ok(())
}

/// Refuses parameters and what reads the clock.
pub(crate) fn without_parameters(parsed: &Parsed) -> Result<(), SqlError>
    ensures { AnswersStatement (λ u. u) (spec.without_parameters parsed.now) result }
{
    if parsed.names.len() != 0 {
        return Err(SqlError::Refused(StatementRefusal::Parameters));
    }
    if parsed.formats.len() != 0 {
        return Err(SqlError::Refused(StatementRefusal::Clock));
    }
    Ok(())
}

/// What the clauses name.
fn clauses_of(
    alloc: Global,
    columns: &DType,
    core: &Core,
    select: &Select,
) -> Result<Plan, SqlError>
    ensures { AnswersStatement plan_view (spec.clauses_of (type_view columns.now) core.now select.now) result }
{
    let table = table_of(alloc, core.from.as_slice())?;
    let filter = filter_of(alloc, columns, &core.filter)?;
    let rows = rows_of(alloc, columns, core.shown.as_slice())?;
    let order = order_of(alloc, columns, select.order.as_slice())?;
    let limit = limit_of(alloc, &select.limit)?;
    Ok(Plan {
        table,
        filter,
        rows,
        order,
        limit,
    })
}

/// What a SELECT names.
#[tactic(auto, unfolding(vx_laws_statements::specs::Statements::select_of))]
fn select_of(
    alloc: Global,
    columns: &DType,
    parsed: &Parsed,
    select: &Select,
) -> Result<Plan, SqlError>
    ensures { AnswersStatement plan_view (spec.select_of (type_view columns.now) parsed.now select.now) result }
{
    plain_select(alloc, select)?;
    without_parameters(parsed)?;
    clauses_of(alloc, columns, &select.first, select)
}

/// The SELECT that a statement is.
pub(crate) fn selected(statement: &Statement) -> Result<&Select, SqlError>
    ensures { AnswersStatement (λ s. s.now) (spec.selected statement.now) result }
{
    match statement {
        Statement::Select(select) => Ok(select.get()),
        Statement::Empty => Err(SqlError::Refused(StatementRefusal::Nothing)),
        _ => Err(SqlError::Refused(StatementRefusal::NoSelect)),
    }
}

/// What the first statement of a text of so many bytes names.
fn parsed_of(alloc: Global, columns: &DType, len: usize, parsed: &Parsed) -> Result<Plan, SqlError>
    ensures { AnswersStatement plan_view (spec.parsed_of (type_view columns.now) len parsed.now) result }
{
    let select = selected(&parsed.statement)?;
    if parsed.tail != len {
        return Err(SqlError::Refused(StatementRefusal::SecondStatement(parsed.tail)));
    }
    select_of(alloc, columns, parsed, select)
}

/// The first statement of a text.
pub(crate) fn read(alloc: Global, text: &str) -> Result<Parsed, SqlError>
    ensures { AnswersStatement (λ p. p) (refused_as unread (parse text.now)) result }
{
    match parse(alloc, text.as_bytes()) {
        Ok(parsed) => Ok(parsed),
        Err(ParseError::OutOfMemory) => Err(SqlError::NoMemory),
        Err(error) => Err(SqlError::Refused(StatementRefusal::Unread(error))),
    }
}

/// The place of the first byte 0 of a text.
pub(crate) fn zero_place(text: &str) -> Option<usize>
    ensures { result ≡ position (λ b. b == 0) text.now }
{
    text.as_bytes().iter().position(|b| *b == 0)
}

/// What a text without a byte 0 names.
fn read_of(alloc: Global, text: &str, columns: &DType) -> Result<Plan, SqlError>
    ensures { AnswersStatement plan_view (spec.read_of (type_view columns.now) (length text.now) (parse text.now)) result }
{
    let parsed = read(alloc, text)?;
    parsed_of(alloc, columns, text.len(), &parsed)
}

/// What a text of SQL names over a table whose rows have this type.
///
/// Refused exactly where the text isn't taken, with the first reason: what can't be read, what isn't taken wherever it stands, and
/// then the table, WHERE, SELECT, ORDER BY and LIMIT.
#[tactic(auto, unfolding(vx_laws_statements::specs::Statements::plan_of))]
pub fn plan(alloc: Global, text: &str, columns: &DType) -> Result<Plan, SqlError>
    ensures { AnswersStatement plan_view (spec.plan_of (type_view columns.now) text.now) result }
{
    match zero_place(text) {
        Some(place) => Err(SqlError::Refused(StatementRefusal::ZeroByte(place))),
        None => read_of(alloc, text, columns),
    }
}
