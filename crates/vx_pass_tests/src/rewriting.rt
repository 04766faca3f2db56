//! The passes, each call with ample memory.
use crate::samples::{col, name, number, rows, two_fields};
use std::alloc::Global;
use std::test::Fail;
use vx_dtype::{FieldNames, Mem, Nullability};
use vx_expr::ExprRef;
use vx_transform::laws::{find_between, remove_merge, remove_select};
use vx_transform::{
    TransformError, pack_of, replace, replace_root_fields, simplify, simplify_typed,
};

/// `$.field = 1`, of the field of this name.
fn equals_one(alloc: Global, field: &str) -> Mem<ExprRef> {
    let field = col(alloc, field)?;
    vx_build::eq(alloc, field, number(alloc, 1)?)
}

/// `$.x = 1`, with another expression for `$.x`.
fn with_for_x(alloc: Global, new: ExprRef) -> Mem<ExprRef> {
    let old = col(alloc, "x")?;
    replace(alloc, equals_one(alloc, "x")?, &old, new)
}

/// `$.x`, with 1 for it.
fn one_for_x(alloc: Global) -> Mem<ExprRef> {
    let old = col(alloc, "x")?;
    replace(alloc, col(alloc, "x")?, &old, number(alloc, 1)?)
}

/// The row with its two fields for it.
fn packed_row(alloc: Global) -> Mem<ExprRef> {
    let fields = two_fields(alloc, "a", "b")?;
    replace_root_fields(alloc, vx_build::root(alloc)?, &fields)
}

/// 1 without selects.
fn without_select(alloc: Global) -> Result<ExprRef, TransformError> {
    let scope = rows(alloc, "a", "b")?;
    remove_select(alloc, number(alloc, 1)?, &scope)
}

/// 1 without merges.
fn without_merge(alloc: Global) -> Result<ExprRef, TransformError> {
    let scope = rows(alloc, "a", "b")?;
    remove_merge(alloc, number(alloc, 1)?, &scope)
}

/// 1, simplified by types.
fn simplified_typed(alloc: Global) -> Result<ExprRef, TransformError> {
    let scope = rows(alloc, "a", "b")?;
    simplify_typed(alloc, number(alloc, 1)?, &scope)
}

/// The struct of 1 under one name.
fn one_packed(alloc: Global) -> Mem<ExprRef> {
    let names = FieldNames::new(alloc, vec![in alloc; name(alloc, "a")?]?)?;
    let values = vec![in alloc; number(alloc, 1)?]?;
    pack_of(alloc, names, values, Nullability::NonNullable)
}

/// Whether an expression is written so.
fn is(alloc: Global, made: ExprRef, text: &str) -> Mem<bool> {
    Ok(format!(in alloc; "{made}")?.as_str() == text)
}

#[test]
fn replacements(rt: HostRuntime) -> Result<(), Fail> {
    let alloc = rt.alloc();
    let made = with_for_x(alloc, col(alloc, "y")?)?;
    assert!(rt; made == equals_one(alloc, "y")?);
    assert!(rt; is(alloc, one_for_x(alloc)?, "1i32")?);
    assert!(rt; is(alloc, packed_row(alloc)?, "pack(a: $.a, b: $.b)")?);
    Ok(())
}

#[test]
fn ample(rt: HostRuntime) -> Result<(), Fail> {
    let alloc = rt.alloc();
    assert!(rt; is(alloc, simplify(alloc, number(alloc, 1)?)?, "1i32")?);
    assert!(rt; is(alloc, find_between(alloc, number(alloc, 1)?)?, "1i32")?);
    assert!(rt; is(alloc, simplified_typed(alloc)?, "1i32")?);
    assert!(rt; is(alloc, without_select(alloc)?, "1i32")?);
    assert!(rt; is(alloc, without_merge(alloc)?, "1i32")?);
    assert!(rt; is(alloc, one_packed(alloc)?, "pack(a: 1i32)")?);
    Ok(())
}
