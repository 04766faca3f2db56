// The metadata of structs of one kind, and structs that are built of it.
ghost use Rattle.std.specs.Prelude.{◌≡◌, length, IfOk, IfErr};
ghost use Rattle.vx_wire.specs.Metadata.{HasMetadata, metadata_bytes};
ghost use Rattle.vx_wire.specs.Building.{IsBuiltOf, IsUnbuiltOf};
ghost use Rattle.vx_wire.specs.Encodings.{encoding_of};
ghost use Rattle.vx_kinds.specs.Refusals.{IsNodeUnserialized};

use crate::asking::AsKind;
use crate::views::VTable;
use std::alloc::Global;
use vx_dtype::Mem;
use vx_expr::ExprRef;
use vx_wire::{BuildError, WireError, is_node_serializable, metadata_of};

/// A kind whose structs have metadata in the wire form, and are built of it.
pub trait VTableWire: VTable {
    /// The metadata that the node of the struct has in the wire tree of the expression that holds it, whatever stands below the node.
    ///
    /// Refuses with NotSerializable exactly where the struct is a dynamic comparison or has a type of its own that is deeper than
    /// 64, and else with TooLong exactly where a text or a list in the metadata has 2^32 or more.
    final fn metadata(expr: &Self::Expr, alloc: Global) -> Result<Vec<u8>, WireError>
        ensures spelled { IfOk result (λ bytes. HasMetadata (Self.tree expr.now) × (bytes.items ≡ metadata_bytes (Self.tree expr.now))) }
        ensures refused { IfErr result (IsNodeUnserialized (Self.tree expr.now)) }
    {
        let node = Self::to_expr(expr, alloc)?;
        if !is_node_serializable(&node) {
            return Err(WireError::NotSerializable);
        }
        metadata_of(alloc, &node)
    }

    /// The struct of the expression of this kind with this metadata and these children.
    ///
    /// Refuses with BadMetadata exactly where the metadata is no spelling of the kind's, as for dynamic comparisons it never is, and
    /// else with WrongChildren exactly where the kind takes more or fewer children.
    final fn build(
        alloc: Global,
        metadata: &[u8],
        children: Vec<ExprRef>,
    ) -> Result<Self::Expr, BuildError>
        ensures built { IfOk result (λ x. IsBuiltOf Self.kind metadata.now children.items (Self.tree x)) }
        ensures refused { IfErr result (λ why. IsUnbuiltOf Self.kind metadata.now (length children.items) why) }
    {
        let made = Self::encoding().build(alloc, metadata, children)?;
        Ok(struct_of::<Self>(&made)?)
    }
}

impl<V: VTable> VTableWire for V {}

/// A clone of the struct of an expression of this kind.
fn struct_of<V: VTable>(expr: &ExprRef) -> Mem<V::Expr>
    requires { encoding_of expr.now ≡ V.kind }
    ensures { IfOk result (λ x. V.tree x ≡ expr.now) }
{
    Ok(expr.as_::<V>().clone()?)
}
