// Laws of the metadata of one node.
ghost use Rattle.std.specs.Prelude.{◌≢◌};
ghost use Rattle.vx_expr.specs.Trees.{Tree};
ghost use Rattle.vx_wire_bytes.specs.declared.errors.WireError.{WireError};
ghost use Rattle.vx_wire_bytes.specs.declared.errors.WireError.TheVariants.{NoMemory};
ghost use Rattle.vx_wire.specs.Metadata.{HasMetadata};
ghost use Rattle.vx_kinds.specs.Refusals.{IsNodeUnserialized};

/// A node that has metadata has no refusal but want of memory.
pub fn metadata_is_not_refused()
    ensures { (e : Tree) (why : WireError) → HasMetadata e → why ≢ NoMemory → ¬ (IsNodeUnserialized e why) }
{}
