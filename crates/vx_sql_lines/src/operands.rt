// Operands that have no place in their form, as lines show them.
ghost use Rattle.std.specs.Prelude.{◌≡◌, IfOk};
ghost use Rattle.std.specs.String.{string_bytes};
ghost use Rattle.vx_dtype.specs.RawViews.{raw_view};
ghost use Rattle.vx_dtype.specs.TypeViews.{type_view};
ghost use Rattle.vx_sql_lines.specs.Lines as spec;
ghost use Rattle.vx_sql_forms.specs.Views.{operand_view, mismatch_view};

use crate::expressions::expression_text;
use std::alloc::Global;
use vx_dtype::{DType, Mem, PType, ScalarValue};
use vx_expr::Expr;
use vx_sql_forms::{Mismatch, Operand, TypedExpr};

/// Of what kind a constant of a type is.
fn constant_kind(alloc: Global, value: &ScalarValue, dtype: &DType) -> Mem<String>
    ensures { IfOk result (λ text. string_bytes text ≡ spec.constant_kind (raw_view value.now) (type_view dtype.now)) }
{
    match value {
        ScalarValue::Bool(_) => Ok(String::from_str(alloc, "a boolean")?),
        ScalarValue::Utf8(_) => Ok(String::from_str(alloc, "a text")?),
        _ => Ok(format!(in alloc; "{dtype}")?),
    }
}

/// Of what kind an expression is.
fn kind_text(alloc: Global, typed: &TypedExpr) -> Mem<String>
    ensures { IfOk result (λ text. string_bytes text ≡ spec.kind_text typed.now.expr (type_view typed.now.dtype)) }
{
    let dtype = &typed.dtype;
    match typed.expr.expr() {
        Expr::Literal(node) => constant_kind(alloc, node.value().value(), dtype),
        _ => Ok(format!(in alloc; "{dtype}")?),
    }
}

/// An expression, and of what kind it is.
#[tactic(auto, unfolding(crate::specs::Lines::operand_text))]
fn known_text(alloc: Global, typed: &TypedExpr) -> Mem<String>
    ensures { IfOk result (λ text. string_bytes text ≡ spec.operand_text (operand_view (Operand.Known typed.now))) }
{
    let text = expression_text(alloc, &typed.expr)?;
    let kind = kind_text(alloc, typed)?;
    Ok(format!(in alloc; "{text} is {kind}")?)
}

/// An operand, and of what kind it is.
#[tactic(auto, unfolding(crate::specs::Lines::operand_text))]
fn operand_text(alloc: Global, operand: &Operand) -> Mem<String>
    ensures { IfOk result (λ text. string_bytes text ≡ spec.operand_text (operand_view operand.now)) }
{
    match operand {
        Operand::Known(typed) => known_text(alloc, typed),
        Operand::Number(number) => Ok(format!(in alloc; "{number} is a number")?),
        Operand::UntypedNull => Ok(String::from_str(alloc, "NULL")?),
    }
}

/// An operand, and what stands in place of what it has to be.
pub(crate) fn operand_line(alloc: Global, operand: &Operand, what: &str) -> Mem<String>
    ensures { IfOk result (λ text. string_bytes text ≡ spec.operand_line (operand_view operand.now) what.now) }
{
    let text = operand_text(alloc, operand)?;
    Ok(format!(in alloc; "{text}, {what}")?)
}

/// A number that is none of a type.
#[tactic(auto, unfolding(crate::specs::Lines::mismatch_text))]
fn out_of_range(alloc: Global, number: i128, ptype: PType) -> Mem<String>
    ensures { IfOk result (λ text. string_bytes text ≡ spec.mismatch_text (mismatch_view (Mismatch.OutOfRange number ptype))) }
{
    let name = ptype.name();
    Ok(format!(in alloc; "{number} is no {name}")?)
}

/// Two integer types that no type holds.
#[tactic(auto, unfolding(crate::specs::Lines::mismatch_text))]
fn no_common_type(alloc: Global, left: PType, right: PType) -> Mem<String>
    ensures { IfOk result (λ text. string_bytes text ≡ spec.mismatch_text (mismatch_view (Mismatch.NoCommonType left right))) }
{
    let left = left.name();
    let right = right.name();
    Ok(format!(in alloc; "no integer type holds both {left} and {right}; cast one of the two")?)
}

/// Two operands of two kinds.
fn other_kinds(alloc: Global, left: &Operand, right: &Operand) -> Mem<String>
    ensures { IfOk result (λ text. string_bytes text ≡ spec.operand_line (operand_view left.now) (spec.operand_text (operand_view right.now))) }
{
    let right = operand_text(alloc, right)?;
    operand_line(alloc, left, right.as_str())
}

/// An operand that isn't cast to a type.
#[tactic(auto, unfolding(crate::specs::Lines::mismatch_text))]
fn no_cast(alloc: Global, operand: &Operand, target: &DType) -> Mem<String>
    ensures { IfOk result (λ text. string_bytes text ≡ spec.mismatch_text (mismatch_view (Mismatch.NoCast operand.now target.now))) }
{
    let what = format!(in alloc; "which isn't cast to {target}")?;
    operand_line(alloc, operand, what.as_str())
}

/// Why operands have no place in their form.
#[tactic(auto, unfolding(crate::specs::Lines::mismatch_text))]
pub(crate) fn mismatch_text(alloc: Global, mismatch: &Mismatch) -> Mem<String>
    ensures { IfOk result (λ text. string_bytes text ≡ spec.mismatch_text (mismatch_view mismatch.now)) }
{
    match mismatch {
        Mismatch::OutOfRange(number, ptype) => out_of_range(alloc, *number, *ptype),
        Mismatch::OtherKinds(left, right) => other_kinds(alloc, left, right),
        Mismatch::NotPlain(operand) => operand_line(alloc, operand, "a list or a struct"),
        Mismatch::NoCommonType(left, right) => no_common_type(alloc, *left, *right),
        Mismatch::NoBoolean(operand) => operand_line(alloc, operand, "no boolean"),
        Mismatch::NoText(operand) => operand_line(alloc, operand, "no text"),
        Mismatch::NoNumber(operand) => operand_line(alloc, operand, "no number"),
        Mismatch::NoCast(operand, target) => no_cast(alloc, operand, target),
        Mismatch::NoConstants => Ok(String::from_str(alloc, "no constants stand in the list")?),
    }
}
