// The line that is told where a statement is refused.
ghost use Rattle.std.specs.Prelude.{◌≡◌, ◌++◌, IfOk, option_copied};
ghost use Rattle.std.specs.String.{string_bytes};
ghost use Rattle.vx_dtype.specs.TypeViews.{type_view};
ghost use Rattle.vx_sql_lines.specs.Lines as spec;
ghost use Rattle.vx_sql.specs.Answers.{refusal_view};
ghost use Rattle.vx_sql.specs.StatementAnswers.{statement_refusal_view};

use crate::names::named;
use crate::refusals::refusal_text;
use crate::unread::{at_byte, no_select_line, unread_line};
use std::alloc::Global;
use vx_dtype::{DType, Mem};
use vx_sql::{Refusal, StatementRefusal};

/// The line of a refusal that holds nothing.
fn fixed_line(refusal: &StatementRefusal) -> Option<&'static str>
    ensures { option_copied result ≡ spec.fixed_line (statement_refusal_view refusal.now) }
{
    match refusal {
        StatementRefusal::Nothing => Some("no statement"),
        StatementRefusal::With => Some("WITH is not taken"),
        StatementRefusal::Compound => Some("UNION, EXCEPT and INTERSECT are not taken"),
        StatementRefusal::Distinct => Some("DISTINCT is not taken"),
        StatementRefusal::Group => Some("GROUP BY is not taken"),
        StatementRefusal::Having => Some("HAVING is not taken"),
        StatementRefusal::Offset => Some("OFFSET is not taken"),
        StatementRefusal::Parameters => Some("parameters are not taken"),
        StatementRefusal::Clock => Some("what reads the clock is not taken"),
        StatementRefusal::NoTable => Some("FROM: no table"),
        StatementRefusal::Join => Some("FROM: a join is not taken"),
        StatementRefusal::InnerQuery => Some("FROM: a query is not taken"),
        StatementRefusal::SeveralKeys => Some("ORDER BY: more than one key"),
        StatementRefusal::NullsFirst => Some("ORDER BY: NULLS FIRST is not taken"),
        StatementRefusal::NoKey => Some("ORDER BY: the key is no column"),
        StatementRefusal::BadLimit => Some("LIMIT: no number from 0 to 2^64 - 1"),
        _ => None,
    }
}

/// A refusal of an expression, behind its clause.
fn clause_line(alloc: Global, clause: &str, columns: &DType, refusal: &Refusal) -> Mem<String>
    ensures { IfOk result (λ line. string_bytes line ≡ clause.now ++ spec.refusal_text (type_view columns.now) (refusal_view refusal.now)) }
{
    let text = refusal_text(alloc, columns, refusal)?;
    Ok(format!(in alloc; "{clause}{text}")?)
}

/// How an expression that is written so gets a name.
#[tactic(auto, unfolding(crate::specs::Lines::naming_advice))]
fn naming_advice(alloc: Global, written: &[u8]) -> Mem<String>
    ensures { IfOk result (λ advice. string_bytes advice ≡ spec.naming_advice written.now) }
{
    named(alloc, " has no name; write ", written, " AS a name")
}

/// An expression without a name.
fn no_name_line(alloc: Global, written: &[u8]) -> Mem<String>
    ensures { IfOk result (λ line. string_bytes line ≡ spec.no_name_line written.now) }
{
    let advice = naming_advice(alloc, written)?;
    named(alloc, "SELECT: ", written, advice.as_str())
}

/// The line of a refusal that holds a place, a name or an expression, or is told by the statement.
#[tactic(auto, unfolding(crate::specs::Lines::held_line))]
fn held_line(alloc: Global, text: &str, columns: &DType, refusal: &StatementRefusal) -> Mem<String>
    ensures { IfOk result (λ line. string_bytes line ≡ spec.held_line text.now (type_view columns.now) (statement_refusal_view refusal.now)) }
{
    match refusal {
        StatementRefusal::ZeroByte(place) => at_byte(alloc, *place, "a byte 0 can't be read"),
        StatementRefusal::Unread(error) => unread_line(alloc, text, *error),
        StatementRefusal::NoSelect => no_select_line(alloc, text),
        StatementRefusal::SecondStatement(place) => at_byte(alloc, *place, "a second statement"),
        StatementRefusal::Alias(s) => {
            named(alloc, "FROM: the alias ", s.as_slice(), " is not taken")
        }
        StatementRefusal::TableName(s) => {
            named(alloc, "FROM: the name ", s.as_slice(), " isn't UTF-8")
        }
        StatementRefusal::InWhere(refusal) => clause_line(alloc, "WHERE: ", columns, refusal),
        StatementRefusal::InSelect(refusal) => clause_line(alloc, "SELECT: ", columns, refusal),
        StatementRefusal::InOrder(refusal) => clause_line(alloc, "ORDER BY: ", columns, refusal),
        StatementRefusal::InnerColumns(s) => {
            named(alloc, "SELECT: ", s.as_slice(), ".* is not taken")
        }
        StatementRefusal::Unnamed(s) => no_name_line(alloc, s.as_slice()),
        StatementRefusal::NameTwice(s) => {
            named(alloc, "SELECT: the name ", s.as_slice(), " stands twice")
        }
        StatementRefusal::BadKey(s) => {
            named(alloc, "ORDER BY: ", s.as_slice(), " is of no plain type")
        }
        _ => Ok(String::new(alloc)),
    }
}

/// The line that is told where a statement over a table whose rows have this type is refused, without an end of line. `text` is the
/// statement.
///
/// A clause's refusal stands behind the clause's name; what can't be read behind its place. Names stand as the statement has them: a name that
/// goes over several lines takes the line with it. Bytes that aren't UTF-8 stand with `?` for each past 127.
#[tactic(auto, unfolding(crate::specs::Lines::line_of))]
pub fn line_of(
    alloc: Global,
    text: &str,
    columns: &DType,
    refusal: &StatementRefusal,
) -> Mem<String>
    ensures { IfOk result (λ line. string_bytes line ≡ spec.line_of text.now (type_view columns.now) (statement_refusal_view refusal.now)) }
{
    match fixed_line(refusal) {
        Some(line) => Ok(String::from_str(alloc, line)?),
        None => held_line(alloc, text, columns, refusal),
    }
}
