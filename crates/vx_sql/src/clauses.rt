// What FROM, WHERE, ORDER BY and LIMIT name.
ghost use Rattle.std.specs.Prelude.{option_map, true, None, Some};
ghost use Rattle.sqlite_ast.specs.declared.Expr.{out-Expr};
ghost use Rattle.vx_dtype.specs.RawViews.{raw_view};
ghost use Rattle.vx_dtype.specs.TypeViews.{type_view};
ghost use Rattle.sqlite_ast.specs.declared.Expr.TheOpen.{Expr-F};
ghost use Rattle.vx_laws_statements.specs.Refusals.{in_where, in_order, no_table_name, no_limit, refused_as};
ghost use Rattle.vx_laws_statements.specs.Constants as constants;
ghost use Rattle.vx_laws_statements.specs.Clauses as spec;
ghost use Rattle.vx_laws_statements.specs.Expressions.{condition_of, column_of};
ghost use Rattle.vx_sql_forms.specs.Views.{typed_view};
ghost use Rattle.vx_sql.specs.StatementAnswers.{AnswersStatement, key_view};

use crate::constants::{constant_of, copy_of, text_of};
use crate::expressions::condition_of;
use crate::leaves::own_column;
use crate::plans::Key;
use crate::refusals::ExpressionError;
use crate::statement_refusals::{SqlError, StatementRefusal};
use sqlite_ast::{Expr, Origin, Select, Sort, Source};
use sqlite_items::Boxed;
use sqlite_value::value::Bytes;
use std::alloc::Global;
use vx_dtype::{DType, FieldName, ScalarValue, Text};
use vx_sql_forms::{TypedExpr, is_plain};

/// Refuses what isn't taken of a table.
fn plain_source(alloc: Global, source: &Source) -> Result<(), SqlError>
    ensures { AnswersStatement (λ u. u) (spec.plain_source source.now) result }
{
    if let Origin::Query(_) = &source.origin {
        return Err(SqlError::Refused(StatementRefusal::InnerQuery));
    }
    if let Some(alias) = &source.alias {
        return Err(SqlError::Refused(StatementRefusal::Alias(copy_of(alloc, alias)?)));
    }
    if source.on.is_some() {
        return Err(SqlError::Refused(StatementRefusal::Join));
    }
    if source.using.len() != 0 {
        return Err(SqlError::Refused(StatementRefusal::Join));
    }
    Ok(())
}

/// Refuses what isn't taken of FROM.
#[tactic(auto, unfolding(vx_laws_statements::specs::Clauses::plain_from))]
pub(crate) fn plain_from(alloc: Global, from: &[Source]) -> Result<(), SqlError>
    ensures { AnswersStatement (λ u. u) (spec.plain_from from.now) result }
{
    match from {
        [] => Ok(()),
        [source] => plain_source(alloc, source),
        _ => Err(SqlError::Refused(StatementRefusal::Join)),
    }
}

/// The name of a table.
fn table_at(alloc: Global, origin: &Origin<Boxed<Select>>) -> Result<Text, SqlError>
    ensures { AnswersStatement (λ s. s) (spec.table_at origin.now) result }
{
    match origin {
        Origin::Table(name) => table_name(alloc, name),
        Origin::Query(_) => Err(SqlError::Refused(StatementRefusal::InnerQuery)),
    }
}

/// These bytes as the name of a table.
#[tactic(auto, using(crate::proofs::Texts::known_text, crate::proofs::Texts::no_text))]
fn table_name(alloc: Global, name: &Bytes) -> Result<Text, SqlError>
    ensures { AnswersStatement (λ s. s) (refused_as (λ r. no_table_name name.now) (constants.text_of name.now)) result }
{
    match str::from_utf8(name.as_slice()) {
        Ok(table) => Ok(Text::new(alloc, table)?),
        Err(_) => Err(SqlError::Refused(StatementRefusal::TableName(copy_of(alloc, name)?))),
    }
}

/// The name of the table.
#[tactic(auto, unfolding(vx_laws_statements::specs::Clauses::table_of))]
pub(crate) fn table_of(alloc: Global, from: &[Source]) -> Result<Text, SqlError>
    ensures { AnswersStatement (λ s. s) (spec.table_of from.now) result }
{
    match from {
        [] => Err(SqlError::Refused(StatementRefusal::NoTable)),
        [source, ..] => table_at(alloc, &source.origin),
    }
}

/// A condition of WHERE.
fn where_condition(alloc: Global, columns: &DType, e: &Expr) -> Result<TypedExpr, SqlError>
    ensures { AnswersStatement typed_view (refused_as in_where (condition_of (type_view columns.now) e.now)) result }
{
    match condition_of(alloc, columns, e) {
        Ok(condition) => Ok(condition),
        Err(ExpressionError::NoMemory) => Err(SqlError::NoMemory),
        Err(ExpressionError::Refused(r)) => Err(SqlError::Refused(StatementRefusal::InWhere(r))),
    }
}

/// The condition that rows are taken by.
#[tactic(auto, unfolding(vx_laws_statements::specs::Clauses::filter_of))]
pub(crate) fn filter_of(
    alloc: Global,
    columns: &DType,
    filter: &Option<Boxed<Expr>>,
) -> Result<Option<TypedExpr>, SqlError>
    ensures { AnswersStatement (option_map typed_view) (spec.filter_of (type_view columns.now) filter.now) result }
{
    match filter {
        None => Ok(None),
        Some(e) => Ok(Some(where_condition(alloc, columns, e.get())?)),
    }
}

/// A column of ORDER BY.
fn order_column(alloc: Global, columns: &DType, name: &Bytes) -> Result<TypedExpr, SqlError>
    ensures { AnswersStatement typed_view (refused_as in_order (column_of (type_view columns.now) None name.now)) result }
{
    match own_column(alloc, columns, name) {
        Ok(column) => Ok(column),
        Err(ExpressionError::NoMemory) => Err(SqlError::NoMemory),
        Err(ExpressionError::Refused(r)) => Err(SqlError::Refused(StatementRefusal::InOrder(r))),
    }
}

/// A name of ORDER BY.
fn order_text(alloc: Global, name: &Bytes) -> Result<Text, SqlError>
    ensures { AnswersStatement (λ s. s) (refused_as in_order (constants.text_of name.now)) result }
{
    match text_of(alloc, name.as_slice()) {
        Ok(text) => Ok(text),
        Err(ExpressionError::NoMemory) => Err(SqlError::NoMemory),
        Err(ExpressionError::Refused(r)) => Err(SqlError::Refused(StatementRefusal::InOrder(r))),
    }
}

/// The key of this name.
fn key_named(
    alloc: Global,
    columns: &DType,
    descending: bool,
    name: &Bytes,
) -> Result<Key, SqlError>
    ensures { AnswersStatement key_view (spec.key_at (type_view columns.now) descending (Expr-F.Column None name.now)) result }
{
    let found = order_column(alloc, columns, name)?;
    if !is_plain(&found.dtype) {
        return Err(SqlError::Refused(StatementRefusal::BadKey(copy_of(alloc, name)?)));
    }
    let text = order_text(alloc, name)?;
    Ok(Key {
        column: FieldName::new(alloc, text.as_str())?,
        descending,
    })
}

/// The key that an expression is.
fn key_at(alloc: Global, columns: &DType, descending: bool, e: &Expr) -> Result<Key, SqlError>
    ensures { AnswersStatement key_view (spec.key_at (type_view columns.now) descending (out-Expr e.now)) result }
{
    match e {
        Expr::Column(None, name) => key_named(alloc, columns, descending, name),
        _ => Err(SqlError::Refused(StatementRefusal::NoKey)),
    }
}

/// The key of ORDER BY.
fn key_of(alloc: Global, columns: &DType, sort: &Sort) -> Result<Option<Key>, SqlError>
    ensures { AnswersStatement (option_map key_view) (spec.key_of (type_view columns.now) sort.now) result }
{
    if let Some(true) = sort.nulls_first {
        return Err(SqlError::Refused(StatementRefusal::NullsFirst));
    }
    Ok(Some(key_at(alloc, columns, sort.descending, &sort.key)?))
}

/// The column that rows are ordered by.
#[tactic(auto, unfolding(vx_laws_statements::specs::Clauses::order_of))]
pub(crate) fn order_of(
    alloc: Global,
    columns: &DType,
    order: &[Sort],
) -> Result<Option<Key>, SqlError>
    ensures { AnswersStatement (option_map key_view) (spec.order_of (type_view columns.now) order.now) result }
{
    match order {
        [] => Ok(None),
        [sort] => key_of(alloc, columns, sort),
        _ => Err(SqlError::Refused(StatementRefusal::SeveralKeys)),
    }
}

/// The number that a constant is.
fn natural(value: &ScalarValue) -> Result<u64, SqlError>
    ensures { AnswersStatement (λ n. n) (spec.natural (raw_view value.now)) result }
{
    if let ScalarValue::Int(number) = value {
        if let Ok(number) = u64::try_from(*number) {
            return Ok(number);
        }
    }
    Err(SqlError::Refused(StatementRefusal::BadLimit))
}

/// The constant of LIMIT.
fn limit_constant(alloc: Global, e: &Expr) -> Result<ScalarValue, SqlError>
    ensures { AnswersStatement raw_view (refused_as (λ r. no_limit) (constants.constant_of e.now)) result }
{
    match constant_of(alloc, e) {
        Ok(value) => Ok(value),
        Err(ExpressionError::NoMemory) => Err(SqlError::NoMemory),
        Err(ExpressionError::Refused(_)) => Err(SqlError::Refused(StatementRefusal::BadLimit)),
    }
}

/// How many rows are asked for.
#[tactic(auto, unfolding(vx_laws_statements::specs::Clauses::limit_of))]
pub(crate) fn limit_of(alloc: Global, limit: &Option<Boxed<Expr>>) -> Result<Option<u64>, SqlError>
    ensures { AnswersStatement (λ n. n) (spec.limit_of limit.now) result }
{
    match limit {
        None => Ok(None),
        Some(e) => {
            let value = limit_constant(alloc, e.get())?;
            Ok(Some(natural(&value)?))
        }
    }
}
