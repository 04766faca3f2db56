// Refusals of an expression, as lines show them.
ghost use Rattle.std.specs.Prelude.{◌≡◌, [], ◌++◌, IfOk, codes};
ghost use Rattle.std.specs.String.{string_bytes};
ghost use Rattle.vx_dtype.specs.TypeRules.{fields_of, field_names};
ghost use Rattle.vx_dtype.specs.TypeViews.{type_view};
ghost use Rattle.vx_expr.specs.SelectionTexts.{joined_names};
ghost use Rattle.vx_sql_lines.specs.Lines as spec;
ghost use Rattle.vx_sql.specs.Answers.{refusal_view};

use crate::names::named;
use crate::operands::{mismatch_text, operand_line};
use sqlite_ast::{Binary, Unary};
use sqlite_value::value::Bytes;
use std::alloc::Global;
use vx_display::DisplayFieldNames;
use vx_dtype::{DType, Mem};
use vx_sql::Refusal;

/// The types that a cast may name.
const TYPES: &str =
    "; the types are bool, utf8, u8 to u64, i8 to i64, each with ? behind it or without";

/// An operator before its operand, or behind it.
fn prefix_text(op: Unary) -> &'static str
    ensures { result.now ≡ spec.prefix_text op }
{
    match op {
        Unary::Minus => "-",
        Unary::Plus => "+",
        Unary::Not => "NOT",
        Unary::BitNot => "~",
        Unary::Collate(_) => "COLLATE",
    }
}

/// An operator between two operands.
fn operator_text(op: Binary) -> &'static str
    ensures { result.now ≡ spec.operator_text op }
{
    match op {
        Binary::Or => "OR",
        Binary::And => "AND",
        Binary::Eq => "=",
        Binary::Ne => "<>",
        Binary::Is | Binary::IsNot => "IS",
        Binary::Like => "LIKE",
        Binary::Lt => "<",
        Binary::Le => "<=",
        Binary::Gt => ">",
        Binary::Ge => ">=",
        Binary::BitAnd => "&",
        Binary::BitOr => "|",
        Binary::LShift => "<<",
        Binary::RShift => ">>",
        Binary::Add => "+",
        Binary::Sub => "-",
        Binary::Mul => "*",
        Binary::Div => "/",
        Binary::Rem => "%",
        Binary::Concat => "||",
    }
}

/// The names of a table's columns.
fn column_names(alloc: Global, columns: &DType) -> Mem<String>
    ensures { IfOk result (λ names. string_bytes names ≡ joined_names [] (field_names (fields_of (type_view columns.now)))) }
{
    match columns {
        DType::Struct(fields, _) => {
            let names = DisplayFieldNames(fields.names());
            Ok(format!(in alloc; "{names}")?)
        }
        _ => Ok(String::new(alloc)),
    }
}

/// A name that is no column, with the names that are some.
fn no_column_text(alloc: Global, columns: &DType, name: &[u8]) -> Mem<String>
    ensures { IfOk result (λ text. string_bytes text ≡ spec.no_column_text (type_view columns.now) name.now) }
{
    let names = column_names(alloc, columns)?;
    let behind = format!(in alloc; "; the columns are {names}")?;
    named(alloc, "no column ", name, behind.as_str())
}

/// A name that is no field of a column.
fn no_field_text(alloc: Global, column: &[u8], name: &[u8]) -> Mem<String>
    ensures { IfOk result (λ text. string_bytes text ≡ spec.no_field_text column.now name.now) }
{
    let behind = named(alloc, " of the column ", column, "")?;
    named(alloc, "no field ", name, behind.as_str())
}

/// A column, or a field of one, in a list of constants.
fn listed_text(alloc: Global, owner: &Option<Bytes>, name: &[u8]) -> Mem<String>
    ensures { IfOk result (λ text. string_bytes text ≡ spec.listed_text owner.now name.now) }
{
    match owner {
        None => named(alloc, "", name, " is no constant"),
        Some(owner) => {
            let behind = named(alloc, ".", name, " is no constant")?;
            named(alloc, "", owner.as_slice(), behind.as_str())
        }
    }
}

/// A text alone.
fn told(alloc: Global, text: &str) -> Mem<String>
    ensures { IfOk result (λ told. string_bytes told ≡ text.now) }
{
    Ok(String::from_str(alloc, text)?)
}

/// A form that isn't taken.
fn not_taken(alloc: Global, form: &str) -> Mem<String>
    ensures { IfOk result (λ text. string_bytes text ≡ form.now ++ codes " is not taken") }
{
    Ok(format!(in alloc; "{form} is not taken")?)
}

/// Why an expression over a table whose rows have this type isn't taken.
#[tactic(auto, unfolding(crate::specs::Lines::refusal_text))]
pub(crate) fn refusal_text(alloc: Global, columns: &DType, refusal: &Refusal) -> Mem<String>
    ensures { IfOk result (λ text. string_bytes text ≡ spec.refusal_text (type_view columns.now) (refusal_view refusal.now)) }
{
    match refusal {
        Refusal::TooDeep => told(alloc, "the expression is too deep"),
        Refusal::Call(name) => named(alloc, "the call of ", name.as_slice(), " is not taken"),
        Refusal::Case => told(alloc, "CASE is not taken"),
        Refusal::Query => told(alloc, "a query is not taken"),
        Refusal::Parameter => told(alloc, "a parameter is not taken"),
        Refusal::Fraction(s) => named(alloc, "the number ", s.as_slice(), " is not taken"),
        Refusal::Hexadecimal(s) => named(alloc, "the number ", s.as_slice(), " is not taken"),
        Refusal::Blob(digits) => named(alloc, "the blob ", digits.as_slice(), " is not taken"),
        Refusal::Prefix(op) => not_taken(alloc, prefix_text(*op)),
        Refusal::Operator(op) => not_taken(alloc, operator_text(*op)),
        Refusal::Integer(s) => named(alloc, "the number ", s.as_slice(), " is of no integer type"),
        Refusal::Text(bytes) => named(alloc, "the text ", bytes.as_slice(), " isn't UTF-8"),
        Refusal::Column(name) => no_column_text(alloc, columns, name.as_slice()),
        Refusal::Field(column, name) => no_field_text(alloc, column.as_slice(), name.as_slice()),
        Refusal::Type(name) => named(alloc, "no type ", name.as_slice(), TYPES),
        Refusal::ListedColumn(owner, name) => listed_text(alloc, owner, name.as_slice()),
        Refusal::Constant => told(alloc, "a member of a list is no constant"),
        Refusal::Misplaced(mismatch) => mismatch_text(alloc, mismatch),
        Refusal::Condition(operand) => operand_line(alloc, operand, "no boolean"),
    }
}
