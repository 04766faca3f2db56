// The filter and the projection by which the generated table is scanned.
ghost use Rattle.std.specs.Prelude.{◌≡◌, true, pos, IfOk};
ghost use Rattle.vx_dtype.specs.declared.Nullability.TheVariants.{NonNullable};
ghost use Rattle.vx_dtype.specs.Types.{int_ty};
ghost use Rattle.vx_dtype.specs.Values.{raw_int};
ghost use Rattle.vx_dtype.specs.Fits.{fits};
ghost use Rattle.vx_laws_generated.specs.GeneratedTable.{integer_of, field_expr, constant_of, generated_filter, generated_projection};
ghost use Rattle.vx_generated.specs.GeneratedViews.{column_view};

use crate::numbers::Column;
use std::alloc::Global;
use vx_build::{and, col, gt_eq, lt};
use vx_dtype::{DType, FieldName, Mem, Nullability, Scalar, ScalarValue};
use vx_expr::{ExprRef, LiteralExpr};

/// Below this number the second column passes the filter.
const V_BOUND: u32 = 50;

/// The filter of the table of this many rows.
pub(crate) fn filter(alloc: Global, rows: u32) -> Mem<ExprRef>
    ensures { IfOk result (λ e. e ≡ generated_filter rows) }
{
    let half = constant_of(alloc, Column::Id, rows / 2)?;
    let second_half = gt_eq(alloc, field_expr(alloc, Column::Id)?, half)?;
    let bound = constant_of(alloc, Column::V, V_BOUND)?;
    let small = lt(alloc, field_expr(alloc, Column::V)?, bound)?;
    and(alloc, second_half, small)
}

/// The projection.
pub(crate) fn projection(alloc: Global) -> Mem<ExprRef>
    ensures { IfOk result (λ e. e ≡ generated_projection) }
{
    field_expr(alloc, Column::Id)
}

/// A column as an expression.
fn field_expr(alloc: Global, column: Column) -> Mem<ExprRef>
    ensures { IfOk result (λ e. e ≡ field_expr (column_view column)) }
{
    col(alloc, FieldName::new(alloc, column.name())?)
}

/// A number as a constant of a column's type.
fn constant_of(alloc: Global, column: Column, number: u32) -> Mem<ExprRef>
    requires { fits (raw_int (pos number)) (int_ty (integer_of (column_view column)) NonNullable) ≡ true }
    ensures { IfOk result (λ e. e ≡ constant_of (column_view column) number) }
{
    let dtype = DType::Primitive(column.integer(), Nullability::NonNullable);
    LiteralExpr::new_expr(alloc, Scalar::new(dtype, ScalarValue::Int(number as i128)))
}
