// What a scan makes ready before its first block.
ghost use Rattle.std.specs.Prelude.{◌≡◌};
ghost use Rattle.vx_dtype.specs.TypeRules.{fields_of, is_bool_ty};
ghost use Rattle.vx_dtype.specs.TypeViews.{type_view};
ghost use Rattle.vx_semantics.specs.Tables.{row_type};
ghost use Rattle.vx_scan.specs.Opening.{PreparesBoth, PreparesScan};
ghost use Rattle.vx_scan.specs.Steps.{PreparesSide};

use crate::errors::{ScanError, Side};
use std::alloc::Global;
use vx_dtype::{DType, Scalar};
use vx_eval::TypeError;
use vx_expr::ExprRef;
use vx_prepare::{PreparedExpr, prepare};
use vx_zones::ZoneMap;

/// A scan that is ready: its filter and its projection, prepared once over the rows of a table, to be evaluated block by block. Which blocks
/// the filter rules out isn't a part of it, since that hangs on the slots too, and these may change from block to block.
#[derive(Debug, Drop)]
pub struct PreparedScan {
    pub(crate) filter: PreparedExpr,
    pub(crate) projection: PreparedExpr,
}

/// The scan of a filter and a projection over the table of these statistics, ready for each of its blocks. It may be run with these slots, or
/// with others that fit both expressions.
///
/// The refusals are those of [`prepare_both`], in its order; nothing is read.
///
/// Source of the rule: expressions are typed and simplified once, and evaluated for each block.
pub fn prepare_scan(
    alloc: Global,
    filter: &ExprRef,
    projection: &ExprRef,
    slots: &[Option<Scalar>],
    zones: &ZoneMap,
) -> Result<PreparedScan, ScanError>
    ensures { PreparesScan zones.now slots.now filter.now projection.now result }
{
    let both = prepare_both(alloc, filter, projection, slots, zones.dtype())?;
    Ok(PreparedScan {
        filter: both.0,
        projection: both.1,
    })
}

impl PreparedScan {
    /// The type of the rows: the projection's strict type.
    pub fn dtype(&self) -> &DType
        ensures { type_view result.now ≡ type_view self.now.projection.dtype }
    {
        self.projection.dtype()
    }
}

/// A filter and a projection over rows of this type, ready to be evaluated. The type is a struct that isn't nullable.
///
/// The refusal is the first of: that of the filter's typing and of its slots, FilterNotBool where its type is no boolean, that of the
/// projection's typing and of its slots. NoMemory comes also where a simplified expression has 2 ^ 64 nodes or more.
pub fn prepare_both(
    alloc: Global,
    filter: &ExprRef,
    projection: &ExprRef,
    slots: &[Option<Scalar>],
    scope: &DType,
) -> Result<(PreparedExpr, PreparedExpr), ScanError>
    requires rows { type_view scope.now ≡ row_type (fields_of (type_view scope.now)) }
    ensures { PreparesBoth (fields_of (type_view scope.now)) slots.now filter.now projection.now result }
{
    let prepared_filter = prepare_side(alloc, filter, scope, slots, Side::Filter)?;
    if !is_boolean(prepared_filter.dtype()) {
        return Err(ScanError::FilterNotBool);
    }
    let prepared_projection = prepare_side(alloc, projection, scope, slots, Side::Projection)?;
    Ok((prepared_filter, prepared_projection))
}

/// The expression of a side, ready to be evaluated. Its refusal of typing tells the side.
fn prepare_side(
    alloc: Global,
    expr: &ExprRef,
    scope: &DType,
    slots: &[Option<Scalar>],
    side: Side,
) -> Result<PreparedExpr, ScanError>
    requires { type_view scope.now ≡ row_type (fields_of (type_view scope.now)) }
    ensures { PreparesSide (fields_of (type_view scope.now)) slots.now side expr.now result }
{
    match prepare(alloc, expr, scope, slots) {
        Ok(prepared) => Ok(prepared),
        Err(TypeError::NoMemory) => Err(ScanError::NoMemory),
        Err(TypeError::NotStruct) => Err(ScanError::NotStruct(side)),
        Err(TypeError::NullableSelect) => Err(ScanError::NullableSelect(side)),
        Err(TypeError::UnknownField) => Err(ScanError::UnknownField(side)),
        Err(TypeError::DuplicateField) => Err(ScanError::DuplicateField(side)),
        Err(TypeError::TypeMismatch) => Err(ScanError::TypeMismatch(side)),
    }
}

/// Whether a type is that of booleans.
fn is_boolean(dtype: &DType) -> bool
    ensures { result ≡ is_bool_ty (type_view dtype.now) }
{
    matches!(dtype, DType::Bool(_))
}
