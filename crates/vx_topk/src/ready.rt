// What is made ready before the first block.
ghost use Rattle.std.specs.Prelude.{◌≡◌, ℕ, None, [], ◌∷◌, IfOk, option_map};
ghost use Rattle.vx_dtype.specs.Types.{Ty};
ghost use Rattle.vx_dtype.specs.TypeRules.{field_type, fields_of};
ghost use Rattle.vx_dtype.specs.TypeViews.{type_view};
ghost use Rattle.vx_laws_topk.specs.TopRows.{TopAsk, bounded_filter, key_operator};
ghost use Rattle.vx_laws_topk.specs.TopPhases.{keyed_projection};
ghost use Rattle.vx_scan.specs.Opening.{IsPreparedScan};
ghost use Rattle.vx_scan.specs.declared.errors.ScanError.TheVariants.{NoMemory as OutOfMemory};
ghost use Rattle.vx_topk.specs.TopEnds.{top_ask};
ghost use Rattle.vx_topk.specs.Ready.{GivesKey, GivesPlain, GivesType, CanBeReady, IsReady};

use crate::errors::TopError;
use std::alloc::Global;
use vx_block_pruning::PruningRule;
use vx_build::{and, col, pack};
use vx_dtype::{CompareOperator, DType, FieldName, Mem, NoMemory, Nullability, Scalar};
use vx_expr::{DynamicComparisonExpr, ExprRef};
use vx_scan::{PreparedScan, ScanError, prepare_scan};
use vx_zones::ZoneMap;

/// What is asked, ready for each block: the key's type, the scan of the filter joined with the bound and of the key packed with the projection,
/// and the pruning rule of that filter.
#[derive(Drop)]
pub(crate) struct TopScan {
    pub(crate) key_dtype: DType,
    pub(crate) scan: PreparedScan,
    pub(crate) rule: PruningRule,
}

/// The type of the key's column. UnknownKey exactly where the table has no column of this name, else BadKey exactly where its type isn't plain.
pub(crate) fn key_type(zones: &ZoneMap, key: &FieldName) -> Result<DType, TopError>
    ensures { GivesKey zones.now key.now result }
{
    match column_type(zones.dtype(), key) {
        Some(dtype) => plain_type(dtype),
        None => Err(TopError::UnknownKey),
    }
}

/// The type of the first field of this name in a struct type.
fn column_type<'a>(scope: &'a DType, name: &FieldName) -> Option<&'a DType>
    ensures { option_map (λ dtype. type_view dtype.now) result ≡ field_type name.now (fields_of (type_view scope.now)) }
{
    match scope {
        DType::Struct(fields, _) => fields.field(name),
        _ => None,
    }
}

/// The type where it is plain. BadKey exactly where it isn't.
fn plain_type(dtype: &DType) -> Result<DType, TopError>
    ensures { GivesPlain (type_view dtype.now) result }
{
    match dtype {
        DType::Bool(n) => Ok(DType::Bool(*n)),
        DType::Primitive(p, n) => Ok(DType::Primitive(*p, *n)),
        DType::Utf8(n) => Ok(DType::Utf8(*n)),
        DType::List(_, _) => Err(TopError::BadKey),
        DType::Struct(_, _) => Err(TopError::BadKey),
    }
}

/// The projection's strict type, where filter and projection are typed over the rows of a table as they were given. The refusals are those of
/// a scan.
pub(crate) fn row_dtype(
    alloc: Global,
    filter: &ExprRef,
    projection: &ExprRef,
    zones: &ZoneMap,
) -> Result<DType, ScanError>
    ensures { GivesType zones.now filter.now projection.now result }
{
    let slots: [Option<Scalar>; 0] = [];
    let scan = prepare_scan(alloc, filter, projection, &slots, zones)?;
    Ok(scan.dtype().clone()?)
}

/// What is asked of a table with these statistics, made ready. The expressions are typed as they were given, and compare with no slot.
pub(crate) fn make_ready(
    alloc: Global,
    filter: &ExprRef,
    projection: &ExprRef,
    key: &FieldName,
    key_dtype: DType,
    descending: bool,
    zones: &ZoneMap,
) -> Mem<TopScan>
    requires { (k : ℕ) × (v : Ty) × CanBeReady zones.now (top_ask filter.now projection.now key.now descending k (type_view key_dtype)) v }
    ensures { (k : ℕ) (v : Ty) → CanBeReady zones.now (top_ask filter.now projection.now key.now descending k (type_view key_dtype)) v →
        IfOk result (IsReady zones.now (top_ask filter.now projection.now key.now descending k (type_view key_dtype)) v) }
{
    let bounded = bounded_filter(alloc, filter, key, &key_dtype, descending)?;
    let packed = keyed_projection(alloc, projection, key)?;
    let rule = PruningRule::new(alloc, zones, &bounded)?;
    let scan = prepare_bounded(alloc, &bounded, &packed, zones)?;
    Ok(TopScan {
        key_dtype,
        scan,
        rule,
    })
}

/// The filter, and that the key stands before the value of the first slot, which is true where the slot has none.
fn bounded_filter(
    alloc: Global,
    filter: &ExprRef,
    key: &FieldName,
    key_dtype: &DType,
    descending: bool,
) -> Mem<ExprRef>
    ensures { (ask : TopAsk) → ask.filter_expr ≡ filter.now → ask.key ≡ key.now → ask.key_type ≡ type_view key_dtype.now → ask.descending ≡ descending →
        IfOk result (λ made. made ≡ bounded_filter ask) }
{
    let before = DynamicComparisonExpr::new_expr(
        alloc,
        col(alloc, key.clone()?)?,
        key_operator(descending),
        0,
        key_dtype.clone()?,
        true,
    )?;
    and(alloc, filter.clone()?, before)
}

/// The comparison by which one key stands before another.
fn key_operator(descending: bool) -> CompareOperator
    ensures { result ≡ key_operator descending }
{
    if descending {
        CompareOperator::Gt
    } else {
        CompareOperator::Lt
    }
}

/// The struct of the key and the projection.
fn keyed_projection(alloc: Global, projection: &ExprRef, key: &FieldName) -> Mem<ExprRef>
    ensures { (ask : TopAsk) → ask.projection ≡ projection.now → ask.key ≡ key.now → IfOk result (λ made. made ≡ keyed_projection ask) }
{
    let mut elements = Vec::new(alloc);
    elements.push((FieldName::new(alloc, "key")?, col(alloc, key.clone()?)?))?;
    elements.push((FieldName::new(alloc, "value")?, projection.clone()?))?;
    pack(alloc, elements, Nullability::NonNullable)
}

/// The scan of the bounded filter and of the packed key and projection. Both are typed, and the slot without a value fits them.
fn prepare_bounded(
    alloc: Global,
    bounded: &ExprRef,
    packed: &ExprRef,
    zones: &ZoneMap,
) -> Mem<PreparedScan>
    requires { (ask : TopAsk) × (v : Ty) × CanBeReady zones.now ask v × (bounded.now ≡ bounded_filter ask) × (packed.now ≡ keyed_projection ask) }
    ensures { IfOk result (λ scan. IsPreparedScan zones.now (None ∷ []) bounded.now packed.now scan) }
{
    let slots = [None];
    match prepare_scan(alloc, bounded, packed, &slots, zones) {
        Ok(scan) => Ok(scan),
        Err(error) => Err(memory_alone(error)),
    }
}

/// Want of memory, which is all that typed expressions are refused by.
fn memory_alone(error: ScanError) -> NoMemory
    requires { error ≡ OutOfMemory }
{
    match error {
        ScanError::NoMemory => NoMemory,
        _ => unreachable!(),
    }
}
