// The expressions that the two byte texts of a scan spell.
ghost use Rattle.vx_dtype.specs.Types.{Bytes};
ghost use Rattle.vx_wire_bytes.specs.ReadAnswers.{IsRead};
ghost use Rattle.vx_wire_bytes.specs.WireViews.{tree_view};
ghost use Rattle.vx_wire.specs.Registries.{registered};
ghost use Rattle.vx_scan.specs.Opening.{Decodes};

use crate::errors::{ScanError, Side};
use std::alloc::Global;
use vx_expr::ExprRef;
use vx_wire::{BuildError, ExprRegistry, WireError, WireTree, deserialize_expr_proto, read_tree};

/// The expression that a byte text of this side spells, of kinds that the registry holds.
///
/// Refuses first for the text, with BadWire, TooDeep or TooManyNodes, and then for the tree that it spells, with UnknownExpr,
/// BadMetadata or WrongChildren, each with the side; else only with NoMemory.
pub fn decode_expr(
    alloc: Global,
    registry: &ExprRegistry,
    bytes: &[u8],
    side: Side,
) -> Result<ExprRef, ScanError>
    ensures { Decodes (registered registry.now) side bytes.now result }
{
    match read_tree(alloc, bytes) {
        Ok(tree) => build(alloc, registry, &tree, side),
        Err(WireError::NoMemory) => Err(ScanError::NoMemory),
        Err(WireError::BadWire) => Err(ScanError::BadWire(side)),
        Err(WireError::TooDeep) => Err(ScanError::TooDeep(side)),
        Err(WireError::TooManyNodes) => Err(ScanError::TooManyNodes(side)),
        Err(WireError::TooLong) => unreachable!(),
        Err(WireError::NotSerializable) => unreachable!(),
    }
}

/// The expression that a wire tree of this side builds.
fn build(
    alloc: Global,
    registry: &ExprRegistry,
    tree: &WireTree,
    side: Side,
) -> Result<ExprRef, ScanError>
    ensures { (bytes : Bytes) → IsRead bytes (tree_view tree.now) → Decodes (registered registry.now) side bytes result }
{
    match deserialize_expr_proto(alloc, tree, registry) {
        Ok(expr) => Ok(expr),
        Err(BuildError::NoMemory) => Err(ScanError::NoMemory),
        Err(BuildError::UnknownExpr) => Err(ScanError::UnknownExpr(side)),
        Err(BuildError::BadMetadata) => Err(ScanError::BadMetadata(side)),
        Err(BuildError::WrongChildren) => Err(ScanError::WrongChildren(side)),
    }
}
