// The table and the expressions of a case.
use crate::errors::CaseError;
use crate::tables::Case;
use std::alloc::Global;
use vx_column::ColumnRef;
use vx_dtype::{DType, FieldName};
use vx_expr::ExprRef;
use vx_request::{RequestError, ScanRequest, decode_request};
use vx_wire::{ExprRegistry, ExprRegistryExt, deserialize_expr_proto};
use vx_wire_bytes::read_tree;
use vx_zones::ZoneMap;

/// A case whose texts were read: the zones, the values that the expressions stand over, and both expressions.
#[derive(Drop)]
pub(crate) struct Opened {
    pub(crate) zones: ZoneMap,
    pub(crate) rows: ColumnRef,
    pub(crate) filter: ExprRef,
    pub(crate) projection: ExprRef,
}

/// The request of a case.
pub(crate) fn requested(alloc: Global, case: &Case<'_>) -> Result<ScanRequest, CaseError> {
    match decode_request(alloc, case.request.as_bytes()) {
        Ok(request) => Ok(request),
        Err(RequestError::NoMemory) => Err(CaseError::NoMemory),
        Err(error) => Err(CaseError::Request(error)),
    }
}

/// A case, with the first block's rows or a column of it.
pub(crate) fn open_case(alloc: Global, case: &Case<'_>) -> Result<Opened, CaseError> {
    let request = requested(alloc, case)?;
    let registry = ExprRegistry::default();
    let filter = expression(alloc, &registry, request.filter.as_slice())?;
    let projection = expression(alloc, &registry, request.projection.as_slice())?;
    let rows = match case.over {
        Some(name) => column_of(alloc, &request, name)?,
        None => rows_of(alloc, &request)?,
    };
    Ok(Opened {
        zones: request.zones,
        rows,
        filter,
        projection,
    })
}

/// The expression that bytes spell.
fn expression(alloc: Global, registry: &ExprRegistry, bytes: &[u8]) -> Result<ExprRef, CaseError> {
    let tree = read_tree(alloc, bytes)?;
    Ok(deserialize_expr_proto(alloc, &tree, registry)?)
}

/// A column of the first block.
fn column_of(alloc: Global, request: &ScanRequest, name: &str) -> Result<ColumnRef, CaseError> {
    let name = FieldName::new(alloc, name)?;
    let (DType::Struct(fields, _), Some(block)) = (request.zones.dtype(), request.blocks.first())
    else {
        return Err(CaseError::NoRows);
    };
    let place = fields.names().position(&name);
    match place.and_then(|place| block.get(place)) {
        Some(column) => Ok(column.clone()?),
        None => Err(CaseError::NoRows),
    }
}

/// The rows of the first block.
fn rows_of(alloc: Global, request: &ScanRequest) -> Result<ColumnRef, CaseError> {
    let DType::Struct(fields, _) = request.zones.dtype() else {
        return Err(CaseError::NoRows);
    };
    let Some(block) = request.blocks.first() else {
        return Err(CaseError::NoRows);
    };
    let Some(len) = request.zones.lengths().first() else {
        return Err(CaseError::NoRows);
    };
    let columns = Vec::from_clones(alloc, block.as_slice())?;
    match ColumnRef::struct_(alloc, fields.names().clone()?, columns, *len as usize, None) {
        Ok(rows) => Ok(rows),
        Err(error) => Err(CaseError::Column(error)),
    }
}
