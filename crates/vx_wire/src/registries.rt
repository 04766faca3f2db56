// Registries of kinds of expressions.
ghost use Rattle.std.specs.Prelude.{◌≡◌, Bool, false, ◌||◌};
ghost use Rattle.vx_wire.specs.Encodings.{same_kind, is_default_kind};
ghost use Rattle.vx_wire.specs.Registries.{registered, held_after, held_named};
ghost use Rattle.vx_wire.specs.declared.encodings.ExprEncoding.{ExprEncoding};

use crate::encodings::{ExprEncoding, kind_of_name};

/// Which kinds of expressions are built from wire trees.
#[derive(Debug, Drop)]
pub struct ExprRegistry {
    /// Whether each kind is held, in the order of the names.
    held: [bool; 14],
}

impl ExprRegistry {
    /// The registry that holds no kind.
    pub fn empty() -> Self
        ensures { (e : ExprEncoding) → registered result e ≡ false }
    {
        ExprRegistry { held: [false; 14] }
    }

    /// Holds this kind from now on.
    pub fn register(&mut self, encoding: ExprEncoding)
        ensures { (e : ExprEncoding) → registered self.new e ≡ (same_kind encoding e || registered self.old e) }
    {
        self.held[encoding.place()] = true;
    }

    /// Holds these kinds from now on.
    pub fn register_many(&mut self, encodings: &[ExprEncoding])
        ensures { (e : ExprEncoding) → registered self.new e ≡ held_after encodings.now e (registered self.old e) }
    {
        for encoding in encodings {
            self.register(*encoding);
        }
    }

    /// The held kind of this name.
    pub fn get(&self, id: &str) -> Option<ExprEncoding>
        ensures { result ≡ held_named (registered self.now) id.now }
    {
        let kind = kind_of_name(id)?;
        if self.held[kind.place()] {
            Some(kind)
        } else {
            None
        }
    }
}

/// The registry that is used where none is given.
pub trait ExprRegistryExt {
    ghost holds: { Self → ExprEncoding → Bool };

    /// All kinds but dynamic comparisons.
    fn default() -> Self
        ensures { (e : ExprEncoding) → holds result e ≡ is_default_kind e };
}

impl ExprRegistryExt for ExprRegistry {
    ghost holds = { registered };

    fn default() -> ExprRegistry {
        ExprRegistry {
            held: [
                true, true, true, false, true, true, true, true, true, true, true, true, true, true,
            ],
        }
    }
}
