//! Tests of vx_build: nodes that no query names, as expressions. All else stands in rows of vx_cases.

use std::alloc::Global;
use std::test::Fail;
use vx_build::{IntoExpr, root};
use vx_dtype::{CompareOperator, DType, FieldNames, Mem, Nullability};
use vx_expr::{DynamicComparisonExpr, ExprError, ExprRef, PackExpr};

/// The comparison of the row with the slot 0, as an expression.
fn equals_slot(alloc: Global) -> Mem<ExprRef> {
    let dtype = DType::Bool(Nullability::NonNullable);
    let node = DynamicComparisonExpr::new(root(alloc)?, CompareOperator::Eq, 0, dtype, true);
    node.into_expr(alloc)
}

/// What a struct of one value without a name is.
fn unnamed_pack(alloc: Global) -> Result<PackExpr, ExprError> {
    let names = FieldNames::new(alloc, Vec::new(alloc))?;
    let values = vec![in alloc; root(alloc)?]?;
    PackExpr::try_new(names, values, Nullability::Nullable)
}

#[test]
fn ample(rt: HostRuntime) -> Result<(), Fail> {
    let alloc = rt.alloc();
    assert!(rt; equals_slot(alloc)?.compact(alloc)?.as_str() == "$ = dynamic(bool)");
    assert!(rt; unnamed_pack(alloc) == Err(ExprError::WrongLength));
    Ok(())
}
