//! The types of expressions over scopes that no request has, and each call with ample memory.
use crate::samples::{col, int, rows};
use std::alloc::Global;
use std::test::Fail;
use vx_dtype::DType;
use vx_eval::{ExprEval, TypeError};
use vx_expr::ExprRef;

/// Whether strict typing refuses an expression for a name that stands twice.
fn is_refused(alloc: Global, expr: ExprRef, scope: DType) -> bool {
    match expr.typed(alloc, &scope) {
        Ok(_) => false,
        Err(refusal) => refusal == TypeError::DuplicateField,
    }
}

/// Whether an expression over a scope has the scope's type, not strictly.
fn has_type_of_scope(alloc: Global, expr: ExprRef, scope: DType) -> Result<bool, TypeError> {
    Ok(expr.return_dtype(alloc, &scope)? == scope)
}

#[test]
fn names_that_stand_twice(rt: HostRuntime) -> Result<(), Fail> {
    let alloc = rt.alloc();
    assert!(rt; is_refused(alloc, vx_build::root(alloc)?, rows(alloc, "a", "a")?));
    assert!(rt; has_type_of_scope(alloc, vx_build::root(alloc)?, rows(alloc, "a", "a")?)?);
    Ok(())
}

#[test]
fn ample(rt: HostRuntime) -> Result<(), Fail> {
    let alloc = rt.alloc();
    let scope = rows(alloc, "a", "b")?;
    assert!(rt; col(alloc, "a")?.typed(alloc, &scope)? == int());
    assert!(rt; col(alloc, "b")?.return_dtype(alloc, &scope)? == int());
    Ok(())
}
