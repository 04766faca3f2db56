// Filters by their wire bytes over the columns of a schema.
ghost use Rattle.std.specs.Prelude.{◌≡◌, Ok};
ghost use Rattle.vx_dtype.specs.Types.{Bytes};
ghost use Rattle.vx_scan.specs.Texts.{SpellsTree};
ghost use Rattle.vx_wire.specs.Encodings.{is_default_kind};
ghost use Rattle.vx_calls.specs.Schemas.{columns_told};
ghost use Rattle.vx_calls.specs.Steps.{TellsFilter, TellsTree};

use crate::errors::CallError;
use crate::schemas::schema_zones;
use std::alloc::Global;
use vx_expr::ExprRef;
use vx_scan::{ScanError, Side, decode_expr};
use vx_typing::{TypeError, is_bool, typed};
use vx_wire::{ExprRegistry, ExprRegistryExt};
use vx_zones::ZoneMap;

/// A filter over the columns of a schema: its expression, which is strictly typed over them, a boolean, and the zones of the schema, of which the columns
/// count.
#[derive(Debug, Drop)]
pub(crate) struct TypedFilter {
    pub(crate) zones: ZoneMap,
    pub(crate) tree: ExprRef,
}

/// An expression that bytes spell, where it is strictly typed over the columns of zones, a boolean.
fn boolean_over(alloc: Global, zones: &ZoneMap, tree: ExprRef) -> Result<ExprRef, CallError>
    ensures { (schema filter : Bytes) → columns_told schema ≡ Ok zones.now.columns → SpellsTree is_default_kind filter tree
        → TellsTree schema filter zones.now.columns result }
{
    match typed(alloc, &tree, zones.dtype()) {
        Ok(dtype) => {
            if !is_bool(&dtype) {
                return Err(CallError::FilterNotBool);
            }
            Ok(tree)
        }
        Err(TypeError::NoMemory) => Err(CallError::NoMemory),
        Err(TypeError::NotStruct) => Err(CallError::NotStruct),
        Err(TypeError::NullableSelect) => Err(CallError::NullableSelect),
        Err(TypeError::UnknownField) => Err(CallError::UnknownField),
        Err(TypeError::DuplicateField) => Err(CallError::DuplicateField),
        Err(TypeError::TypeMismatch) => Err(CallError::TypeMismatch),
    }
}

/// The filter that bytes spell over the columns of zones.
fn tree_over(alloc: Global, zones: &ZoneMap, filter: &[u8]) -> Result<ExprRef, CallError>
    ensures { (schema : Bytes) → columns_told schema ≡ Ok zones.now.columns → TellsTree schema filter.now zones.now.columns result }
{
    let registry = ExprRegistry::default();
    match decode_expr(alloc, &registry, filter, Side::Filter) {
        Ok(tree) => boolean_over(alloc, zones, tree),
        Err(ScanError::NoMemory) => Err(CallError::NoMemory),
        Err(ScanError::BadWire(_)) => Err(CallError::BadWire),
        Err(ScanError::TooDeep(_)) => Err(CallError::TooDeep),
        Err(ScanError::TooManyNodes(_)) => Err(CallError::TooManyNodes),
        Err(ScanError::UnknownExpr(_)) => Err(CallError::UnknownExpr),
        Err(ScanError::BadMetadata(_)) => Err(CallError::BadMetadata),
        Err(ScanError::WrongChildren(_)) => Err(CallError::WrongChildren),
        Err(ScanError::NotStruct(_)) => unreachable!(),
        Err(ScanError::NullableSelect(_)) => unreachable!(),
        Err(ScanError::UnknownField(_)) => unreachable!(),
        Err(ScanError::DuplicateField(_)) => unreachable!(),
        Err(ScanError::TypeMismatch(_)) => unreachable!(),
        Err(ScanError::FilterNotBool) => unreachable!(),
        Err(ScanError::Overflow) => unreachable!(),
        Err(ScanError::BadCast) => unreachable!(),
        Err(ScanError::StoreFault) => unreachable!(),
    }
}

/// The filter that bytes spell over the columns of zones, with these.
fn filter_over(alloc: Global, zones: ZoneMap, filter: &[u8]) -> Result<TypedFilter, CallError>
    ensures { (schema : Bytes) → columns_told schema ≡ Ok zones.columns → TellsFilter schema filter.now result }
{
    match tree_over(alloc, &zones, filter) {
        Ok(tree) => Ok(TypedFilter { zones, tree }),
        Err(error) => Err(error),
    }
}

/// The filter that bytes spell over the columns of a schema.
pub(crate) fn typed_filter(
    alloc: Global,
    schema: &[u8],
    filter: &[u8],
) -> Result<TypedFilter, CallError>
    ensures { TellsFilter schema.now filter.now result }
{
    match schema_zones(alloc, schema) {
        Ok(zones) => filter_over(alloc, zones, filter),
        Err(error) => Err(error),
    }
}
