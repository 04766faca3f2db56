//! Columns of expressions over rows that no request has.
use crate::samples::{col, number};
use std::alloc::Global;
use std::test::Fail;
use vx_column::ColumnRef;
use vx_dtype::{Mem, Nullability, Scalar};
use vx_eval::{EvalError, ExprEval, Scope};
use vx_expr::ExprRef;

/// The column of an expression over three rows without fields.
fn evaluated(alloc: Global, expr: ExprRef) -> Result<ColumnRef, EvalError> {
    let scope = Scope::empty(alloc, 3)?;
    expr.evaluate(alloc, &scope)
}

/// Whether a column is 7 at three rows.
fn is_sevens(alloc: Global, column: &ColumnRef) -> Mem<bool> {
    match ColumnRef::constant(alloc, &Scalar::from(7i32), 3) {
        Ok(sevens) => Ok(*column == sevens),
        Err(_) => Ok(false),
    }
}

/// How many rows a copy of a scope of three has.
fn copied_rows(alloc: Global) -> Mem<usize> {
    Ok(Scope::empty(alloc, 3)?.clone()?.len())
}

#[test]
fn ample(rt: HostRuntime) -> Result<(), Fail> {
    let alloc = rt.alloc();
    let sevens = evaluated(alloc, number(alloc, 7)?)?;
    assert!(rt; is_sevens(alloc, &sevens)?);
    assert!(rt; copied_rows(alloc)? == 3);
    Ok(())
}

#[test]
fn no_fields(rt: HostRuntime) -> Result<(), Fail> {
    let alloc = rt.alloc();
    assert!(rt; evaluated(alloc, col(alloc, "a")?).is_err());
    Ok(())
}

/// How many rows a merge of no structs has over three, which no bytes spell.
fn rows_of_no_structs(alloc: Global) -> Result<usize, EvalError> {
    let merged = vx_build::merge(alloc, Vec::new(alloc), Nullability::NonNullable)?;
    Ok(evaluated(alloc, merged)?.len())
}

#[test]
fn no_structs(rt: HostRuntime) -> Result<(), Fail> {
    assert!(rt; rows_of_no_structs(rt.alloc())? == 3);
    Ok(())
}

#[test]
fn no_slots(rt: HostRuntime) -> Result<(), Fail> {
    let rows = Scope::empty(rt.alloc(), 3)?;
    assert!(rt; rows.len() == 3);
    assert!(rt; rows.slots().is_empty());
    Ok(())
}
