// The table that a text of SQL names, before the columns of the table are known.
ghost use Rattle.std.specs.Prelude.{length};
ghost use Rattle.sqlite_syntax.specs.Statement.{parse};
ghost use Rattle.vx_laws_statements.specs.TableNames as spec;
ghost use Rattle.vx_sql.specs.StatementAnswers.{AnswersStatement};

use crate::clauses::table_of;
use crate::statement_refusals::{SqlError, StatementRefusal};
use crate::statements::{plain_select, read, selected, without_parameters, zero_place};
use sqlite_ast::Select;
use sqlite_syntax::Parsed;
use std::alloc::Global;
use vx_dtype::Text;

/// The table that a SELECT names.
#[tactic(auto, unfolding(vx_laws_statements::specs::TableNames::table_of_select))]
fn table_of_select(alloc: Global, parsed: &Parsed, select: &Select) -> Result<Text, SqlError>
    ensures { AnswersStatement (λ s. s) (spec.table_of_select parsed.now select.now) result }
{
    plain_select(alloc, select)?;
    without_parameters(parsed)?;
    table_of(alloc, select.first.from.as_slice())
}

/// The table that the first statement of a text of so many bytes names.
fn table_of_parsed(alloc: Global, len: usize, parsed: &Parsed) -> Result<Text, SqlError>
    ensures { AnswersStatement (λ s. s) (spec.table_of_parsed len parsed.now) result }
{
    let select = selected(&parsed.statement)?;
    if parsed.tail != len {
        return Err(SqlError::Refused(StatementRefusal::SecondStatement(parsed.tail)));
    }
    table_of_select(alloc, parsed, select)
}

/// The table that a text without a byte 0 names.
fn table_of_read(alloc: Global, text: &str) -> Result<Text, SqlError>
    ensures { AnswersStatement (λ s. s) (spec.table_of_read (length text.now) (parse text.now)) result }
{
    let parsed = read(alloc, text)?;
    table_of_parsed(alloc, text.len(), &parsed)
}

/// The table that a text of SQL names, whatever columns the table has: that of each [`plan`](crate::plan) over columns.
///
/// Refused where each plan is, with the same reason, before columns are looked at: for what can't be read, for what isn't taken wherever it stands, and for
/// the table.
#[tactic(auto, unfolding(vx_laws_statements::specs::TableNames::table_named))]
pub fn table_named(alloc: Global, text: &str) -> Result<Text, SqlError>
    ensures { AnswersStatement (λ s. s) (spec.table_named text.now) result }
{
    match zero_place(text) {
        Some(place) => Err(SqlError::Refused(StatementRefusal::ZeroByte(place))),
        None => table_of_read(alloc, text),
    }
}
