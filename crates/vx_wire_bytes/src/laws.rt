// Laws of wire texts.
ghost use Rattle.std.specs.Prelude.{◌≡◌, ◌++◌};
ghost use Rattle.vx_dtype.specs.Types.{Bytes};
ghost use Rattle.vx_wire_bytes.specs.Wires.{Wire, wire_bytes, IsSpellable, Spells};
ghost use Rattle.vx_wire_bytes.specs.Openings.{IsTooDeep, IsTooMany};

/// Bytes spell at most one tree.
pub fn one_tree()
    ensures { (bytes : Bytes) (a b : Wire) → Spells bytes a → Spells bytes b → a ≡ b }
{}

/// No text of a node is a proper prefix of another one: where two texts of nodes begin the same bytes, they are the same text.
pub fn no_text_begins_another()
    ensures { (a b : Wire) (x y : Bytes) → IsSpellable a → IsSpellable b → wire_bytes a ++ x ≡ wire_bytes b ++ y → (a ≡ b) × (x ≡ y) }
{}

/// Bytes meet at most one of the two limits first.
pub fn one_limit()
    ensures { (bytes : Bytes) → IsTooDeep bytes → ¬ (IsTooMany bytes) }
{}
