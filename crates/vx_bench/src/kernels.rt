// Calls on columns, their conditions tested.
ghost use Rattle.std.specs.Prelude.{◌≡◌, true, length, IfOk};
ghost use Rattle.vx_dtype.specs.TypeRules.{alike, is_bool_ty};

use crate::types::{is_plain, is_truth};
use anyhow::{Result, bail};
use std::alloc::Global;
use vx_column::ColumnRef;
use vx_dtype::Nullability::NonNullable;
use vx_dtype::{BetweenOptions, CompareOperator, FieldName, Mem, Scalar};
use vx_kernels::{and_kleene, between, checked_add, compare, or_kleene};

/// A number of i64, or a text.
#[derive(Clone, Copy)]
pub(crate) enum Constant {
    /// The number.
    Number(i64),
    /// The text.
    Text(&'static str),
}

/// A constant as a scalar.
fn scalar(alloc: Global, constant: Constant) -> Mem<Scalar> {
    match constant {
        Constant::Number(number) => Ok(Scalar::from(number)),
        Constant::Text(text) => Scalar::utf8(alloc, text, NonNullable),
    }
}

/// A constant as a column of so many rows.
pub(crate) fn rows_of(alloc: Global, constant: Constant, len: usize) -> Result<ColumnRef> {
    match ColumnRef::constant(alloc, &scalar(alloc, constant)?, len) {
        Ok(column) => Ok(column),
        Err(_) => bail!("no constant"),
    }
}

/// A constant of a column's type, nullable or not, as a column of as many rows.
fn beside(alloc: Global, constant: Constant, column: &ColumnRef) -> Result<ColumnRef>
    ensures alike { IfOk result (λ c. alike column.now.ty c.ty ≡ true) }
    ensures lengths { IfOk result (λ c. length column.now.rows ≡ length c.rows) }
{
    let made = rows_of(alloc, constant, column.len())?;
    if !column.dtype().eq_ignore_nullability(made.dtype()) {
        bail!("a constant of another type")
    }
    if column.len() != made.len() {
        bail!("a constant of another length")
    }
    Ok(made)
}

/// The sums of a column's integers and a constant.
pub(crate) fn added(alloc: Global, column: &ColumnRef, constant: Constant) -> Result<ColumnRef> {
    if !column.dtype().is_primitive() {
        bail!("no integers")
    }
    match checked_add(alloc, column, &beside(alloc, constant, column)?) {
        Ok(sums) => Ok(sums),
        Err(_) => bail!("no sums"),
    }
}

/// How a column's values compare with a constant.
pub(crate) fn compared(
    alloc: Global,
    column: &ColumnRef,
    operator: CompareOperator,
    constant: Constant,
) -> Result<ColumnRef> {
    if !is_plain(column.dtype()) {
        bail!("no plain values")
    }
    Ok(compare(alloc, column, &beside(alloc, constant, column)?, operator)?)
}

/// Whether a column's values lie between two constants.
pub(crate) fn ranged(
    alloc: Global,
    column: &ColumnRef,
    lower: Constant,
    upper: Constant,
    options: BetweenOptions,
) -> Result<ColumnRef> {
    if !is_plain(column.dtype()) {
        bail!("no plain values")
    }
    let lower = beside(alloc, lower, column)?;
    let upper = beside(alloc, upper, column)?;
    Ok(between(alloc, column, &lower, &upper, options)?)
}

/// Whether two columns have truths at as many rows.
fn are_truths(l: &ColumnRef, r: &ColumnRef) -> Result<()>
    ensures left { IfOk result (λ _. is_bool_ty l.now.ty ≡ true) }
    ensures right { IfOk result (λ _. is_bool_ty r.now.ty ≡ true) }
    ensures lengths { IfOk result (λ _. length l.now.rows ≡ length r.now.rows) }
{
    if !is_truth(l.dtype()) {
        bail!("no truths on the left")
    }
    if !is_truth(r.dtype()) {
        bail!("no truths on the right")
    }
    if l.len() != r.len() {
        bail!("other rows on the right")
    }
    Ok(())
}

/// Both of two columns of truths.
pub(crate) fn both(alloc: Global, l: &ColumnRef, r: &ColumnRef) -> Result<ColumnRef> {
    are_truths(l, r)?;
    Ok(and_kleene(alloc, l, r)?)
}

/// One of two columns of truths.
pub(crate) fn either(alloc: Global, l: &ColumnRef, r: &ColumnRef) -> Result<ColumnRef> {
    are_truths(l, r)?;
    Ok(or_kleene(alloc, l, r)?)
}

/// The values of a column where one of truths is true.
pub(crate) fn kept(alloc: Global, column: &ColumnRef, keep: &ColumnRef) -> Result<ColumnRef> {
    if !is_truth(keep.dtype()) {
        bail!("no truths")
    }
    if column.len() != keep.len() {
        bail!("other rows")
    }
    Ok(column.filter(alloc, keep)?)
}

/// The values of a column, null where one of truths is true.
pub(crate) fn masked(alloc: Global, column: &ColumnRef, nulls: &ColumnRef) -> Result<ColumnRef> {
    if !is_truth(nulls.dtype()) {
        bail!("no truths")
    }
    if column.len() != nulls.len() {
        bail!("other rows")
    }
    Ok(column.mask(alloc, nulls)?)
}

/// The values of a field of a column of structs.
pub(crate) fn item(alloc: Global, column: &ColumnRef, name: &str) -> Result<ColumnRef> {
    if !column.dtype().is_struct() {
        bail!("no structs")
    }
    match column.field(alloc, &FieldName::new(alloc, name)?) {
        Ok(field) => Ok(field),
        Err(_) => bail!("no such field"),
    }
}
