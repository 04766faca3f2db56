// What a request holds: a table and two expressions.
use anyhow::{Result, bail};
use std::alloc::Global;
use vx_dtype::{DType, StructFields};
use vx_expr::ExprRef;
use vx_request::{ScanRequest, decode_request};
use vx_wire::{ExprRegistry, ExprRegistryExt, deserialize_expr_proto, read_tree};

/// A request, and its two expressions.
#[derive(Drop)]
pub(crate) struct Opened {
    pub(crate) request: ScanRequest,
    pub(crate) filter: ExprRef,
    pub(crate) projection: ExprRef,
}

/// What the bytes of a request hold.
pub(crate) fn open(alloc: Global, bytes: &[u8]) -> Result<Opened> {
    let Ok(request) = decode_request(alloc, bytes) else {
        bail!("no request")
    };
    with_expressions(alloc, request)
}

/// A request with the expressions that its bytes spell.
fn with_expressions(alloc: Global, request: ScanRequest) -> Result<Opened> {
    let filter = expression(alloc, request.filter.as_slice())?;
    let projection = expression(alloc, request.projection.as_slice())?;
    Ok(Opened {
        request,
        filter,
        projection,
    })
}

/// The expression that bytes spell.
fn expression(alloc: Global, bytes: &[u8]) -> Result<ExprRef> {
    let tree = read_tree(alloc, bytes)?;
    Ok(deserialize_expr_proto(alloc, &tree, &ExprRegistry::default())?)
}

/// The names and the types of the columns of rows of this type.
pub(crate) fn fields(scope: &DType) -> Result<&StructFields> {
    match scope {
        DType::Struct(fields, _) => Ok(fields),
        _ => bail!("no columns"),
    }
}
