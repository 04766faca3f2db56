// Expressions as lines show them: as SQL writes them where they are columns or constants.
ghost use Rattle.std.specs.Prelude.{◌≡◌, IfOk, option_copied};
ghost use Rattle.std.specs.String.{string_bytes};
ghost use Rattle.vx_expr.specs.Nodes.{item_field, item_child};
ghost use Rattle.vx_sql_lines.specs.Lines as spec;

use crate::names::text_literal;
use std::alloc::Global;
use vx_dtype::{FieldName, Mem, Scalar, ScalarValue};
use vx_expr::{Expr, ExprRef, GetItemExpr};

/// A constant.
fn constant_text(alloc: Global, scalar: &Scalar) -> Mem<String>
    ensures { IfOk result (λ text. string_bytes text ≡ spec.constant_text scalar.now.value scalar.now.ty) }
{
    match scalar.value() {
        ScalarValue::Null => Ok(String::from_str(alloc, "NULL")?),
        ScalarValue::Bool(true) => Ok(String::from_str(alloc, "TRUE")?),
        ScalarValue::Bool(false) => Ok(String::from_str(alloc, "FALSE")?),
        ScalarValue::Int(number) => Ok(format!(in alloc; "{number}")?),
        ScalarValue::Utf8(text) => text_literal(alloc, text.as_str()),
        ScalarValue::List(_) | ScalarValue::Struct(_) => Ok(format!(in alloc; "{scalar}")?),
    }
}

/// Whether an expression is the row.
fn is_row(expr: &ExprRef) -> bool
    ensures { result ≡ spec.is_row expr.now }
{
    matches!(expr.expr(), Expr::Root(_))
}

/// The name of the column that an expression is.
fn column_name(expr: &ExprRef) -> Option<&FieldName>
    ensures { option_copied result ≡ spec.column_name expr.now }
{
    match expr.expr() {
        Expr::GetItem(node) => {
            if is_row(node.child()) {
                Some(node.field())
            } else {
                None
            }
        }
        _ => None,
    }
}

/// A column, or a field of something.
fn item_text(alloc: Global, node: &GetItemExpr) -> Mem<String>
    ensures { IfOk result (λ text. string_bytes text ≡ spec.item_text (item_field node.now) (item_child node.now)) }
{
    let name = node.field();
    let owner = node.child();
    if is_row(owner) {
        return Ok(String::from_str(alloc, name.as_str())?);
    }
    match column_name(owner) {
        Some(column) => Ok(format!(in alloc; "{column}.{name}")?),
        None => Ok(format!(in alloc; "{owner}.{name}")?),
    }
}

/// An expression: a column, a field of a column and a constant as SQL writes them, and another one by its compact text.
#[tactic(auto, unfolding(crate::specs::Lines::expression_text))]
pub(crate) fn expression_text(alloc: Global, expr: &ExprRef) -> Mem<String>
    ensures { IfOk result (λ text. string_bytes text ≡ spec.expression_text expr.now) }
{
    match expr.expr() {
        Expr::Literal(node) => constant_text(alloc, node.value()),
        Expr::GetItem(node) => item_text(alloc, node),
        _ => expr.compact(alloc),
    }
}
