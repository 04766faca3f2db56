//! The sample of the README, compiled and run.

use std::alloc::Global;
use std::test::Fail;
use vx_build::{col, gt, lit};
use vx_dtype::{FieldName, Mem};
use vx_expr::ExprRef;

// ($.x > 10i32)
pub fn above_ten(alloc: Global) -> Mem<ExprRef> {
    gt(
        alloc,
        col(alloc, FieldName::new(alloc, "x")?)?,
        lit(alloc, 10i32)?,
    )
}

#[test]
fn the_sample_is_a_comparison(rt: HostRuntime) -> Result<(), Fail> {
    let text = above_ten(rt.alloc())?.compact(rt.alloc())?;
    assert!(rt; text.as_str() == "($.x > 10i32)");
    Ok(())
}
