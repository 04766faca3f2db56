// What a statement names, or the line of its refusal: for callers that tell refusals and ask nothing else of them.
ghost use Rattle.std.specs.Prelude.{◌≡◌, IfOk};
ghost use Rattle.std.specs.String.{string_bytes};
ghost use Rattle.vx_dtype.specs.Types.{Bytes, no_fields};
ghost use Rattle.vx_dtype.specs.TypeViews.{type_view};
ghost use Rattle.vx_laws_statements.specs.Statements.{plan_of};
ghost use Rattle.vx_laws_statements.specs.TableNames.{table_named};
ghost use Rattle.vx_semantics.specs.Tables.{row_type};
ghost use Rattle.vx_sql.specs.StatementAnswers.{plan_view, statement_refusal_view};
ghost use Rattle.vx_sql_lines.specs.Lines as spec;
ghost use Rattle.vx_sql_lines.specs.Told.{IsLine, TellsError, TellsStatement};

use crate::lines::line_of;
use std::alloc::{AllocFailed, Global};
use std::rc::Rc;
use vx_dtype::{DType, FieldNames, Mem, NoMemory, Nullability, StructFields, Text};
use vx_sql::{Plan, SqlError, StatementRefusal, plan, table_named};

/// Why a statement names nothing, as it is told.
#[derive(Debug, Drop)]
pub enum ToldError {
    /// There was no memory.
    NoMemory,
    /// The statement isn't taken: the line that tells why, without an end of line.
    Refused(String),
}

/// The line of a refusal that may be shared, where there was memory for that: so that no call holds a refusal itself beside other values.
fn shared_line(
    alloc: Global,
    text: &str,
    columns: &DType,
    refusal: Result<Rc<StatementRefusal>, AllocFailed<StatementRefusal>>,
) -> Mem<String>
    ensures { (r : StatementRefusal) → IfOk refusal (λ shared. shared.value ≡ r)
        → IfOk result (λ line. string_bytes line ≡ spec.line_of text.now (type_view columns.now) (statement_refusal_view r)) }
{
    match refusal {
        Ok(shared) => line_of(alloc, text, columns, &shared),
        Err(failed) => Err(NoMemory::from(failed)),
    }
}

/// The line of a refusal, as it is told.
fn told_line(line: Mem<String>) -> ToldError
    ensures { (bytes : Bytes) → IfOk line (λ line. string_bytes line ≡ bytes) → IsLine bytes result }
{
    match line {
        Ok(line) => ToldError::Refused(line),
        Err(NoMemory) => ToldError::NoMemory,
    }
}

/// What is told of an error.
fn told_error(alloc: Global, text: &str, columns: &DType, error: SqlError) -> ToldError
    ensures { TellsError text.now (type_view columns.now) error result }
{
    match error {
        SqlError::NoMemory => ToldError::NoMemory,
        SqlError::Refused(refusal) => {
            told_line(shared_line(alloc, text, columns, Rc::new(alloc, refusal)))
        }
    }
}

/// What a text of SQL names over a table whose rows have this type, as [`plan`](vx_sql::plan) says it, or the line of its refusal, as
/// [`line_of`](crate::line_of) tells it over this type.
pub fn told_plan(alloc: Global, text: &str, columns: &DType) -> Result<Plan, ToldError>
    ensures { TellsStatement plan_view text.now (type_view columns.now) (plan_of (type_view columns.now) text.now) result }
{
    match plan(alloc, text, columns) {
        Ok(plan) => Ok(plan),
        Err(error) => Err(told_error(alloc, text, columns, error)),
    }
}

/// The type of rows without columns.
fn no_columns(alloc: Global) -> Mem<DType>
    ensures { IfOk result (λ columns. type_view columns ≡ row_type no_fields) }
{
    let names = FieldNames::new(alloc, Vec::new(alloc))?;
    let fields = StructFields::new(alloc, names, Vec::new(alloc))?;
    Ok(DType::Struct(fields, Nullability::NonNullable))
}

/// The table that a text of SQL names, or the line of its refusal over rows of this type.
fn told_name(alloc: Global, text: &str, columns: &DType) -> Result<Text, ToldError>
    ensures { TellsStatement (λ s. s) text.now (type_view columns.now) (table_named text.now) result }
{
    match table_named(alloc, text) {
        Ok(name) => Ok(name),
        Err(error) => Err(told_error(alloc, text, columns, error)),
    }
}

/// The table that a text of SQL names before its columns are known, as [`table_named`](vx_sql::table_named) says it, or the line of its refusal, as
/// [`line_of`](crate::line_of) tells it over rows without columns.
pub fn told_table(alloc: Global, text: &str) -> Result<Text, ToldError>
    ensures { TellsStatement (λ s. s) text.now (row_type no_fields) (table_named text.now) result }
{
    match no_columns(alloc) {
        Ok(columns) => told_name(alloc, text, &columns),
        Err(NoMemory) => Err(ToldError::NoMemory),
    }
}
