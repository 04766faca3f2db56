//! Tests of vx_expr: the comparison with a slot, which no query names, and the texts of errors. All else stands in rows of vx_cases.

use std::alloc::Global;
use std::test::Fail;
use vx_build::root;
use vx_dtype::{CompareOperator, DType, Mem, Nullability};
use vx_expr::{DynamicComparisonExpr, ExprError, ExprRef, VortexExpr};

/// Whether the row is above the slot 0.
fn above_slot(alloc: Global) -> Mem<DynamicComparisonExpr> {
    let dtype = DType::Bool(Nullability::NonNullable);
    Ok(DynamicComparisonExpr::new(root(alloc)?, CompareOperator::Gt, 0, dtype, true))
}

/// The same as an expression.
fn above_slot_expr(alloc: Global) -> Mem<ExprRef> {
    let dtype = DType::Bool(Nullability::NonNullable);
    DynamicComparisonExpr::new_expr(alloc, root(alloc)?, CompareOperator::Gt, 0, dtype, true)
}

/// How many children the comparison lists.
fn listed_children(alloc: Global) -> Mem<usize> {
    Ok(above_slot(alloc)?.child_list(alloc)?.len())
}

/// Whether the comparison is made again from a row.
fn is_made_again(alloc: Global) -> Result<bool, ExprError> {
    let expr = above_slot_expr(alloc)?;
    let children = vec![in alloc; root(alloc)?]?;
    Ok(expr.with_children(alloc, children)? == expr)
}

#[test]
fn a_comparison_with_a_slot(rt: HostRuntime) -> Result<(), Fail> {
    let alloc = rt.alloc();
    assert!(rt; above_slot_expr(alloc)?.id() == "dynamic");
    assert!(rt; above_slot_expr(alloc)?.children_count() == 1);
    Ok(())
}

#[test]
fn ample(rt: HostRuntime) -> Result<(), Fail> {
    let alloc = rt.alloc();
    assert!(rt; listed_children(alloc)? == 1);
    assert!(rt; is_made_again(alloc)?);
    Ok(())
}

/// The text of a refusal.
fn text_of(alloc: Global, error: ExprError) -> Mem<String> {
    Ok(format!(in alloc; "{error}")?)
}

#[test]
fn errors_have_texts(rt: HostRuntime) -> Result<(), Fail> {
    let alloc = rt.alloc();
    assert!(rt; text_of(alloc, ExprError::NoMemory)?.as_str() == "NoMemory");
    assert!(rt; text_of(alloc, ExprError::WrongChildren)?.as_str() == "WrongChildren");
    assert!(rt; text_of(alloc, ExprError::WrongLength)?.as_str() == "WrongLength");
    assert!(rt; text_of(alloc, ExprError::UnknownField)?.as_str() == "UnknownField");
    assert!(rt; text_of(alloc, ExprError::UnknownOperator)?.as_str() == "UnknownOperator");
    assert!(rt; text_of(alloc, ExprError::NotComparison)?.as_str() == "NotComparison");
    Ok(())
}
