// How statements are refused, held against rows.
use crate::errors::CaseError;
use crate::rows::{list_of, maybe_text_in, text_in};
use serde_json::Value;
use sqlite_syntax::error::ParseError;
use std::alloc::Global;
use vx_dtype::{DType, Mem};
use vx_sql::{Refusal, StatementRefusal};
use vx_sql_forms::Mismatch;
use vx_sql_lines::{line_of, refused_at};

/// A refusal as rows tell it.
#[derive(Drop)]
pub(crate) struct Told {
    /// What is wrong, and where.
    cause: Cause,
    /// The place in the statement, where one is told.
    place: Option<usize>,
    /// The line.
    line: String,
}

/// What is wrong, and where.
#[derive(Clone, Copy)]
struct Cause {
    /// What is wrong.
    kind: &'static str,
    /// The clause where it is, where one is told.
    clause: Option<&'static str>,
}

/// What is told of a refusal.
pub(crate) fn told_refusal(
    alloc: Global,
    sql: &str,
    columns: &DType,
    refusal: &StatementRefusal,
) -> Mem<Told> {
    Ok(Told {
        cause: cause_of(refusal),
        place: refused_at(sql, refusal),
        line: line_of(alloc, sql, columns, refusal)?,
    })
}

/// How a statement is refused, where that isn't what its row says.
pub(crate) fn refusal_difference(
    alloc: Global,
    row: &Value,
    told: &Told,
) -> Result<Option<String>, CaseError> {
    if is_told(row, told) {
        return Ok(None);
    }
    Ok(Some(told_text(alloc, told)?))
}

/// Whether a row says how a statement is refused, and the line and the place that are told of it.
fn is_told(row: &Value, told: &Told) -> bool {
    let Some(wanted) = row.get("refusal") else {
        return false;
    };
    is_cause(wanted, told.cause)
        && is_placed(wanted, told.place)
        && is_line(wanted, told.line.as_str())
}

/// Whether this is wrong in this clause.
fn is_cause(wanted: &Value, cause: Cause) -> bool {
    text_in(wanted, "kind") == cause.kind && maybe_text_in(wanted, "clause") == cause.clause
}

/// Whether a place is the one that is wanted, or there is none where that is wanted.
fn is_placed(wanted: &Value, place: Option<usize>) -> bool {
    match wanted.get("at") {
        Some(at) => at.as_u64() == place.map(|place| place as u64),
        None => true,
    }
}

/// Whether a line has each word that is wanted, and is the line that is wanted, where one is.
fn is_line(wanted: &Value, line: &str) -> bool {
    for word in list_of(wanted.get("words")) {
        if !line.contains(word.as_str().unwrap_or("")) {
            return false;
        }
    }
    match maybe_text_in(wanted, "line") {
        Some(whole) => whole == line,
        None => true,
    }
}

/// A refusal, as a text.
fn told_text(alloc: Global, told: &Told) -> Mem<String> {
    let Cause { kind, clause } = told.cause;
    let clause = clause.unwrap_or("-");
    let line = told.line.as_str();
    match told.place {
        Some(place) => Ok(format!(in alloc; "{kind} in {clause} at {place}: {line}")?),
        None => Ok(format!(in alloc; "{kind} in {clause}: {line}")?),
    }
}

/// A refusal that no clause is told of.
fn of_statement(kind: &'static str) -> Cause {
    Cause { kind, clause: None }
}

/// A refusal of a clause.
fn of_clause(clause: &'static str, kind: &'static str) -> Cause {
    Cause {
        kind,
        clause: Some(clause),
    }
}

/// How rows tell the refusal of a statement.
fn cause_of(refusal: &StatementRefusal) -> Cause {
    match refusal {
        StatementRefusal::ZeroByte(_) => of_statement("Unreadable"),
        StatementRefusal::Unread(error) => unread_cause(*error),
        StatementRefusal::Nothing => of_statement("NoStatement"),
        StatementRefusal::NoSelect => of_statement("NotTaken"),
        StatementRefusal::SecondStatement(_) => of_statement("TwoStatements"),
        StatementRefusal::With => of_statement("NotTaken"),
        StatementRefusal::Compound => of_statement("NotTaken"),
        StatementRefusal::Join => of_clause("FROM", "NotTaken"),
        StatementRefusal::InnerQuery => of_clause("FROM", "NotTaken"),
        StatementRefusal::Alias(_) => of_clause("FROM", "NotTaken"),
        StatementRefusal::Distinct => of_statement("NotTaken"),
        StatementRefusal::Group => of_statement("NotTaken"),
        StatementRefusal::Having => of_statement("NotTaken"),
        StatementRefusal::Offset => of_statement("NotTaken"),
        StatementRefusal::Parameters => of_statement("NotTaken"),
        StatementRefusal::Clock => of_statement("NotTaken"),
        StatementRefusal::NoTable => of_clause("FROM", "NoTable"),
        StatementRefusal::TableName(_) => of_clause("FROM", "NotUtf8"),
        StatementRefusal::InWhere(refusal) => of_clause("WHERE", kind_of(refusal)),
        StatementRefusal::InSelect(refusal) => of_clause("SELECT", kind_of(refusal)),
        StatementRefusal::InOrder(refusal) => of_clause("ORDER BY", kind_of(refusal)),
        StatementRefusal::InnerColumns(_) => of_clause("SELECT", "NotTaken"),
        StatementRefusal::Unnamed(_) => of_clause("SELECT", "Unnamed"),
        StatementRefusal::NameTwice(_) => of_clause("SELECT", "NameTwice"),
        StatementRefusal::SeveralKeys => of_clause("ORDER BY", "SeveralKeys"),
        StatementRefusal::NullsFirst => of_clause("ORDER BY", "NotTaken"),
        StatementRefusal::NoKey => of_clause("ORDER BY", "NoColumn"),
        StatementRefusal::BadKey(_) => of_clause("ORDER BY", "BadKey"),
        StatementRefusal::BadLimit => of_clause("LIMIT", "BadLimit"),
    }
}

/// How rows tell that a statement isn't read.
fn unread_cause(error: ParseError) -> Cause {
    match error {
        ParseError::Syntax(_) | ParseError::Unsupported(_) => of_statement("Unreadable"),
        ParseError::TooDeep => of_statement("TooDeep"),
        ParseError::BadParameter => of_statement("NotTaken"),
        ParseError::OutOfMemory => of_statement("NoMemory"),
    }
}

/// The kind of a refusal of an expression.
fn kind_of(refusal: &Refusal) -> &'static str {
    match refusal {
        Refusal::TooDeep => "TooDeep",
        Refusal::Call(_) => "NotTaken",
        Refusal::Case => "NotTaken",
        Refusal::Query => "NotTaken",
        Refusal::Parameter => "NotTaken",
        Refusal::Fraction(_) => "NotTaken",
        Refusal::Hexadecimal(_) => "NotTaken",
        Refusal::Blob(_) => "NotTaken",
        Refusal::Prefix(_) => "NotTaken",
        Refusal::Operator(_) => "NotTaken",
        Refusal::Integer(_) => "OutOfRange",
        Refusal::Text(_) => "NotUtf8",
        Refusal::Column(_) => "UnknownColumn",
        Refusal::Field(_, _) => "UnknownField",
        Refusal::Type(_) => "UnknownType",
        Refusal::ListedColumn(_, _) => "NotConstant",
        Refusal::Constant => "NotConstant",
        Refusal::Misplaced(mismatch) => mismatch_kind(mismatch),
        Refusal::Condition(_) => "FilterNotBool",
    }
}

/// The kind of operands that have no place in their form.
fn mismatch_kind(mismatch: &Mismatch) -> &'static str {
    match mismatch {
        Mismatch::OutOfRange(_, _) => "OutOfRange",
        Mismatch::OtherKinds(_, _) => "OtherKinds",
        Mismatch::NotPlain(_) => "NotPlain",
        Mismatch::NoCommonType(_, _) => "NoCommonType",
        Mismatch::NoBoolean(_) => "NoBoolean",
        Mismatch::NoText(_) => "NoText",
        Mismatch::NoNumber(_) => "NoNumber",
        Mismatch::NoCast(_, _) => "NoCast",
        Mismatch::NoConstants => "NoConstants",
    }
}
