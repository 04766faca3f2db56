//! Versions of what the slot of a comparison holds.
use crate::samples::{col, int};
use std::alloc::Global;
use std::test::Fail;
use vx_dtype::{CompareOperator, Mem, Scalar};
use vx_eval::{DynamicExprUpdates, VersionError};
use vx_expr::{DynamicComparisonExpr, ExprRef};

/// What slot 0 holds when it is looked at, after it was seen without a value.
const LOOKS: [Option<i32>; 4] = [None, Some(5), Some(5), None];

/// The version at each look.
const VERSIONS: [u64; 4] = [0, 1, 1, 2];

/// The comparison `$.x > dynamic(i32)` with slot 0.
fn above_slot(alloc: Global) -> Mem<ExprRef> {
    let above = CompareOperator::Gt;
    DynamicComparisonExpr::new_expr(alloc, col(alloc, "x")?, above, 0, int(), true)
}

/// The updates of an expression, when its slot was seen without a value.
fn updates(alloc: Global, expr: ExprRef) -> Mem<Option<DynamicExprUpdates>> {
    DynamicExprUpdates::new(alloc, &expr, &[None])
}

/// The version when slot 0 holds this number, or none.
fn version_at(updates: &mut DynamicExprUpdates, look: Option<i32>) -> Result<u64, VersionError> {
    match look {
        Some(number) => updates.version(&[Some(Scalar::from(number))]),
        None => updates.version(&[None]),
    }
}

/// The versions at the looks.
fn versions(alloc: Global, mut updates: DynamicExprUpdates) -> Result<Vec<u64>, Fail> {
    let mut seen = Vec::new(alloc);
    for look in LOOKS {
        seen.push(version_at(&mut updates, look)?)?;
    }
    Ok(seen)
}

#[test]
fn a_version_for_each_difference(rt: HostRuntime) -> Result<(), Fail> {
    let alloc = rt.alloc();
    let made = updates(alloc, above_slot(alloc)?)?;
    let seen = versions(alloc, made.ok_or("no comparison with a slot")?)?;
    assert!(rt; seen.as_slice() == VERSIONS.as_slice());
    Ok(())
}

#[test]
fn no_comparison_with_a_slot(rt: HostRuntime) -> Result<(), Fail> {
    let alloc = rt.alloc();
    assert!(rt; updates(alloc, col(alloc, "x")?)?.is_none());
    Ok(())
}
