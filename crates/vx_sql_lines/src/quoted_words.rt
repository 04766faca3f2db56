// The word that a refusal of a clause quotes.
ghost use Rattle.std.specs.Prelude.{◌≡◌, option_copied};
ghost use Rattle.std.specs.List.{list_any};
ghost use Rattle.vx_sql_lines.specs.Lines as spec;
ghost use Rattle.vx_sql.specs.Answers.{refusal_view};
ghost use Rattle.vx_sql.specs.StatementAnswers.{statement_refusal_view};
ghost use Rattle.vx_sql_forms.specs.Views.{operand_view, mismatch_view};

use vx_expr::{Expr, ExprRef};
use vx_sql::{Refusal, StatementRefusal};
use vx_sql_forms::{Mismatch, Operand};

/// Whether a byte is a quote, which is doubled between quotes of its own.
fn is_quote(byte: u8) -> bool
    ensures { result ≡ spec.is_quote byte }
{
    byte == b'"' || byte == b'\'' || byte == b'`'
}

/// Whether a quote stands in a name.
fn has_quote(name: &[u8]) -> bool
    ensures { result ≡ list_any spec.is_quote name.now }
{
    name.iter().any(|byte| is_quote(*byte))
}

/// A name, where no quote stands in it.
fn name_word(name: &[u8]) -> Option<&[u8]>
    ensures { option_copied result ≡ spec.name_word name.now }
{
    if has_quote(name) { None } else { Some(name) }
}

/// The name of a column, or of a field.
fn item_word(expr: &ExprRef) -> Option<&[u8]>
    ensures { option_copied result ≡ spec.item_word expr.now }
{
    match expr.expr() {
        Expr::GetItem(node) => name_word(node.field().as_str().as_bytes()),
        _ => None,
    }
}

/// The name of the column or field that an operand is.
fn operand_word(operand: &Operand) -> Option<&[u8]>
    ensures { option_copied result ≡ spec.operand_word (operand_view operand.now) }
{
    match operand {
        Operand::Known(typed) => item_word(&typed.expr),
        _ => None,
    }
}

/// The name that the first of two operands has, or else the second.
fn either_word<'a>(left: &'a Operand, right: &'a Operand) -> Option<&'a [u8]>
    ensures { option_copied result ≡ spec.either_word (spec.operand_word (operand_view left.now)) (spec.operand_word (operand_view right.now)) }
{
    match operand_word(left) {
        Some(word) => Some(word),
        None => operand_word(right),
    }
}

/// The word of operands that have no place in their form.
fn mismatch_word(mismatch: &Mismatch) -> Option<&[u8]>
    ensures { option_copied result ≡ spec.mismatch_word (mismatch_view mismatch.now) }
{
    match mismatch {
        Mismatch::OutOfRange(_, _) => None,
        Mismatch::OtherKinds(left, right) => either_word(left, right),
        Mismatch::NotPlain(operand) => operand_word(operand),
        Mismatch::NoCommonType(_, _) => None,
        Mismatch::NoBoolean(operand) => operand_word(operand),
        Mismatch::NoText(operand) => operand_word(operand),
        Mismatch::NoNumber(operand) => operand_word(operand),
        Mismatch::NoCast(operand, _) => operand_word(operand),
        Mismatch::NoConstants => None,
    }
}

/// The word of a refusal of an expression.
fn refusal_word(refusal: &Refusal) -> Option<&[u8]>
    ensures { option_copied result ≡ spec.refusal_word (refusal_view refusal.now) }
{
    match refusal {
        Refusal::Call(name) => name_word(name.as_slice()),
        Refusal::Fraction(written) => Some(written.as_slice()),
        Refusal::Hexadecimal(written) => Some(written.as_slice()),
        Refusal::Blob(digits) => Some(digits.as_slice()),
        Refusal::Integer(digits) => Some(digits.as_slice()),
        Refusal::Text(bytes) => name_word(bytes.as_slice()),
        Refusal::Column(name) => name_word(name.as_slice()),
        Refusal::Field(_, name) => name_word(name.as_slice()),
        Refusal::Type(name) => name_word(name.as_slice()),
        Refusal::ListedColumn(_, name) => name_word(name.as_slice()),
        Refusal::Misplaced(mismatch) => mismatch_word(mismatch),
        Refusal::Condition(operand) => operand_word(operand),
        _ => None,
    }
}

/// The word that a refusal of a clause quotes, and that stands in the statement.
#[tactic(auto, unfolding(crate::specs::Lines::quoted_word))]
pub(crate) fn quoted_word(refusal: &StatementRefusal) -> Option<&[u8]>
    ensures { option_copied result ≡ spec.quoted_word (statement_refusal_view refusal.now) }
{
    match refusal {
        StatementRefusal::Alias(name) => name_word(name.as_slice()),
        StatementRefusal::TableName(name) => name_word(name.as_slice()),
        StatementRefusal::InWhere(refusal) => refusal_word(refusal),
        StatementRefusal::InSelect(refusal) => refusal_word(refusal),
        StatementRefusal::InOrder(refusal) => refusal_word(refusal),
        StatementRefusal::InnerColumns(name) => name_word(name.as_slice()),
        StatementRefusal::Unnamed(written) => Some(written.as_slice()),
        StatementRefusal::NameTwice(name) => name_word(name.as_slice()),
        StatementRefusal::BadKey(name) => name_word(name.as_slice()),
        _ => None,
    }
}
