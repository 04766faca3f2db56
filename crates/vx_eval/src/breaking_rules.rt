// The rules of the nodes that break: sums, differences and casts.
ghost use Rattle.std.specs.Prelude.{◌≡◌, ◌&&◌, length, map};
ghost use Rattle.vx_dtype.specs.Sums.{add3, sub3};
ghost use Rattle.vx_dtype.specs.Casts.{cast3};
ghost use Rattle.vx_dtype.specs.TypeRules.{alike, is_int_ty};
ghost use Rattle.vx_dtype.specs.TypeViews.{type_view};
ghost use Rattle.vx_column.specs.Columns.{zip_rows};
ghost use Rattle.vx_column.specs.Answers.{no_faults};
ghost use Rattle.vx_semantics.specs.Typing.{sum_type, cast_type};
ghost use Rattle.vx_semantics.specs.Breaks.{by_sum, by_cast};
ghost use Rattle.vx_eval.specs.Steps.{MakesUnlessBroken};

use crate::errors::Failure;
use std::alloc::Global;
use vx_column::{ColumnError, ColumnRef};
use vx_dtype::DType;
use vx_kernels::{cast, checked_add, checked_sub};
use vx_typing::takes_cast;

/// Whether two types are the same integer type but for nullability.
fn equal_integers(left: &DType, right: &DType) -> bool
    ensures { result ≡ (alike (type_view left.now) (type_view right.now) && is_int_ty (type_view left.now)) }
{
    left.eq_ignore_nullability(right) && left.is_primitive()
}

/// The sum of numbers of one integer type, row by row. No row of a column is a fault.
pub(crate) fn add_columns(
    alloc: Global,
    left: &ColumnRef,
    right: &ColumnRef,
) -> Result<ColumnRef, Failure>
    requires { length left.now.rows ≡ length right.now.rows }
    ensures { MakesUnlessBroken by_sum (no_faults left.now.rows && no_faults right.now.rows) (sum_type left.now.ty right.now.ty)
        (zip_rows add3 left.now.rows right.now.rows) result }
{
    if !equal_integers(left.dtype(), right.dtype()) {
        return Err(Failure::Mistyped);
    }
    match checked_add(alloc, left, right) {
        Ok(column) => Ok(column),
        Err(ColumnError::NoMemory) => Err(Failure::NoMemory),
        Err(ColumnError::Overflow) => Err(Failure::Overflow),
        Err(_) => unreachable!(),
    }
}

/// The difference of numbers of one integer type, row by row. No row of a column is a fault.
pub(crate) fn subtract_columns(
    alloc: Global,
    left: &ColumnRef,
    right: &ColumnRef,
) -> Result<ColumnRef, Failure>
    requires { length left.now.rows ≡ length right.now.rows }
    ensures { MakesUnlessBroken by_sum (no_faults left.now.rows && no_faults right.now.rows) (sum_type left.now.ty right.now.ty)
        (zip_rows sub3 left.now.rows right.now.rows) result }
{
    if !equal_integers(left.dtype(), right.dtype()) {
        return Err(Failure::Mistyped);
    }
    match checked_sub(alloc, left, right) {
        Ok(column) => Ok(column),
        Err(ColumnError::NoMemory) => Err(Failure::NoMemory),
        Err(ColumnError::Overflow) => Err(Failure::Overflow),
        Err(_) => unreachable!(),
    }
}

/// The values in another type, row by row. No row of a column is a fault.
pub(crate) fn cast_column(
    alloc: Global,
    operand: &ColumnRef,
    target: &DType,
) -> Result<ColumnRef, Failure>
    ensures { MakesUnlessBroken by_cast (no_faults operand.now.rows) (cast_type (type_view target.now) operand.now.ty)
        (map (cast3 (type_view target.now)) operand.now.rows) result }
{
    if !takes_cast(operand.dtype(), target) {
        return Err(Failure::Mistyped);
    }
    match cast(alloc, operand, target) {
        Ok(column) => Ok(column),
        Err(ColumnError::NoMemory) => Err(Failure::NoMemory),
        Err(ColumnError::BadCast) => Err(Failure::BadCast),
        Err(_) => unreachable!(),
    }
}
