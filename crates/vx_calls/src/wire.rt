// The wire bytes of an expression.
ghost use Rattle.std.specs.Prelude.{◌≡◌};
ghost use Rattle.vx_wire.specs.Forms.{wire_of, Everywhere};
ghost use Rattle.vx_wire.specs.Metadata.{IsSerializable};
ghost use Rattle.vx_wire_bytes.specs.WireViews.{tree_view};
ghost use Rattle.vx_calls.specs.Answers.{told_bytes};
ghost use Rattle.vx_calls.specs.Steps.{TellsBytes};

use crate::errors::CallError;
use std::alloc::Global;
use vx_expr::ExprRef;
use vx_wire::ExprSerializeProtoExt;
use vx_wire_bytes::{WireError, WireTree, write_tree};

/// The bytes of an expression.
pub(crate) fn expression_bytes(alloc: Global, expr: &ExprRef) -> Result<Vec<u8>, CallError>
    ensures { TellsBytes expr.now (told_bytes result) }
{
    match expr.serialize_proto(alloc) {
        Ok(tree) => tree_bytes(alloc, expr, &tree),
        Err(WireError::NoMemory) => Err(CallError::NoMemory),
        Err(WireError::NotSerializable) => Err(CallError::NotSerializable),
        Err(WireError::TooLong) => Err(CallError::TooLong),
        Err(WireError::BadWire) => unreachable!(),
        Err(WireError::TooDeep) => unreachable!(),
        Err(WireError::TooManyNodes) => unreachable!(),
    }
}

/// The bytes of the wire tree of an expression.
fn tree_bytes(alloc: Global, expr: &ExprRef, tree: &WireTree) -> Result<Vec<u8>, CallError>
    requires tree { tree_view tree.now ≡ wire_of expr.now }
    requires shallow { Everywhere IsSerializable expr.now }
    ensures { TellsBytes expr.now (told_bytes result) }
{
    match write_tree(alloc, tree) {
        Ok(bytes) => Ok(bytes),
        Err(WireError::NoMemory) => Err(CallError::NoMemory),
        Err(WireError::TooLong) => Err(CallError::TooLong),
        Err(WireError::NotSerializable) => unreachable!(),
        Err(WireError::BadWire) => unreachable!(),
        Err(WireError::TooDeep) => unreachable!(),
        Err(WireError::TooManyNodes) => unreachable!(),
    }
}
