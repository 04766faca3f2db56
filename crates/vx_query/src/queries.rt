// The bytes of the expression that a query names.
ghost use Rattle.std.specs.Prelude.{◌≡◌, IfOk, IfErr};
ghost use Rattle.vx_wire.specs.Forms.{wire_of, wire_text, Everywhere};
ghost use Rattle.vx_wire.specs.Metadata.{HasShortMetadata};
ghost use Rattle.vx_wire_bytes.specs.WireViews.{tree_view};
ghost use Rattle.vx_query.specs.RefusalViews.{IsWithoutBytes};
ghost use Rattle.vx_query.specs.Running.{IsShallow, HasBytes};
ghost use Rattle.vx_query.specs.TextViews.{AnswersQuery};

use crate::refusals::Refusal;
use crate::reports::hex_line;
use std::alloc::Global;
use vx_expr::ExprRef;
use vx_text::read_query;
use vx_wire::ExprSerializeProtoExt;
use vx_wire_bytes::{WireError, WireTree, write_tree};

/// The line of the bytes of the expression that a query names, or the one cause that there is none.
pub(crate) fn query_bytes(alloc: Global, query: &str) -> Result<String, Refusal>
    ensures { AnswersQuery query.now result }
{
    let expr = read_query(alloc, query)?;
    let bytes = expression_bytes(alloc, &expr)?;
    let line = hex_line(alloc, bytes.as_slice())?;
    Ok(line)
}

/// The bytes of an expression, or the one cause that there are none.
fn expression_bytes(alloc: Global, expr: &ExprRef) -> Result<Vec<u8>, Refusal>
    ensures bytes { IfOk result (λ bytes. bytes.items ≡ wire_text expr.now) }
    ensures written { IfOk result (λ bytes. HasBytes expr.now) }
    ensures refused { IfErr result (IsWithoutBytes expr.now) }
{
    match expr.serialize_proto(alloc) {
        Ok(tree) => tree_bytes(alloc, expr, &tree),
        Err(WireError::NoMemory) => Err(Refusal::NoMemory),
        Err(WireError::NotSerializable) => Err(Refusal::NotSerializable),
        Err(WireError::TooLong) => Err(Refusal::LongPart),
        Err(WireError::BadWire) => unreachable!(),
        Err(WireError::TooDeep) => unreachable!(),
        Err(WireError::TooManyNodes) => unreachable!(),
    }
}

/// The bytes of the wire tree of an expression.
fn tree_bytes(alloc: Global, expr: &ExprRef, tree: &WireTree) -> Result<Vec<u8>, Refusal>
    requires tree { tree_view tree.now ≡ wire_of expr.now }
    requires shallow { IsShallow expr.now }
    requires short { Everywhere HasShortMetadata expr.now }
    ensures bytes { IfOk result (λ bytes. bytes.items ≡ wire_text expr.now) }
    ensures written { IfOk result (λ bytes. HasBytes expr.now) }
    ensures refused { IfErr result (IsWithoutBytes expr.now) }
{
    match write_tree(alloc, tree) {
        Ok(bytes) => Ok(bytes),
        Err(WireError::NoMemory) => Err(Refusal::NoMemory),
        Err(WireError::TooLong) => Err(Refusal::LongPart),
        Err(WireError::NotSerializable) => unreachable!(),
        Err(WireError::BadWire) => unreachable!(),
        Err(WireError::TooDeep) => unreachable!(),
        Err(WireError::TooManyNodes) => unreachable!(),
    }
}
