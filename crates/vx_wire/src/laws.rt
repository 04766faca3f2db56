// Laws of the kinds' names, and of what wire trees build.
ghost use Rattle.std.specs.Prelude.{◌≡◌, ◌≢◌, Bool, Some};
ghost use Rattle.vx_dtype.specs.Types.{Bytes};
ghost use Rattle.vx_expr.specs.Trees.{Tree};
ghost use Rattle.vx_expr.specs.Children.{id_of};
ghost use Rattle.vx_wire_bytes.specs.Wires.{Wire, HasShortParts};
ghost use Rattle.vx_wire_bytes.specs.Openings.{IsTooDeep, IsTooMany};
ghost use Rattle.vx_wire_bytes.specs.ReadAnswers.{IsRead};
ghost use Rattle.vx_wire.specs.Building.{IsBuilt, IsUnbuilt};
ghost use Rattle.vx_wire.specs.Encodings.{encoding_id, encoding_of, kind_named, is_default_kind};
ghost use Rattle.vx_wire.specs.Forms.{wire_of, wire_text, Everywhere};
ghost use Rattle.vx_wire.specs.Metadata.{HasForm};
ghost use Rattle.vx_wire.specs.declared.encodings.ExprEncoding.{ExprEncoding};
ghost use Rattle.vx_wire.specs.declared.errors.BuildError.{BuildError};
ghost use Rattle.vx_wire.specs.declared.errors.BuildError.TheVariants.{NoMemory};

/// Each kind is the one of its name, and the kind of a name has that name.
pub fn ids_name_kinds()
    ensures kind { (e : ExprEncoding) → kind_named (encoding_id e) ≡ Some e }
    ensures name { (id : Bytes) (e : ExprEncoding) → kind_named id ≡ Some e → id ≡ encoding_id e }
{}

/// The kind of an expression has the name of its node.
pub fn encodings_have_ids()
    ensures { (e : Tree) → encoding_id (encoding_of e) ≡ id_of e }
{}

/// A wire tree builds one expression at most.
pub fn one_expression()
    ensures { (holds : ExprEncoding → Bool) (wire : Wire) (a b : Tree) → IsBuilt holds wire a → IsBuilt holds wire b → a ≡ b }
{}

/// A wire tree that builds an expression has no refusal but want of memory.
pub fn built_is_not_refused()
    ensures { (holds : ExprEncoding → Bool) (w : Wire) (e : Tree) (why : BuildError) → IsBuilt holds w e → why ≢ NoMemory → ¬ (IsUnbuilt holds w why) }
{}

/// Where each node of an expression has a form, and `write_tree` writes its wire tree, the bytes are read as that tree if they meet
/// no limit, and the default registry builds the expression of it again.
pub fn written_is_read_and_built_again()
    ensures read { (e : Tree) → HasShortParts (wire_of e) → ¬ (IsTooDeep (wire_text e)) → ¬ (IsTooMany (wire_text e)) → IsRead (wire_text e) (wire_of e) }
    ensures built { (e : Tree) → Everywhere HasForm e → IsBuilt is_default_kind (wire_of e) e }
{}
