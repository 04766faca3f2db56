//! A value that a rewrite made.
ghost use Rattle.std.specs.Prelude.{◌≡◌, true, false};

use crate::order::TraversalOrder;

/// A value that a rewrite made, with where to go on and whether it was changed.
#[derive(Debug, Clone, Drop)]
pub struct Transformed<T> {
    /// The value.
    pub value: T,
    /// Where the rewrite goes on.
    pub order: TraversalOrder,
    /// Whether the value was changed.
    pub changed: bool,
}

impl<T> Transformed<T> {
    /// The changed `value`, with the order Continue.
    pub fn yes(value: T) -> Self
        ensures { result ≡ record { value = value; order = TraversalOrder.Continue; changed = true } }
    {
        Transformed {
            value,
            order: TraversalOrder::Continue,
            changed: true,
        }
    }

    /// The unchanged `value`, with the order Continue.
    pub fn no(value: T) -> Self
        ensures { result ≡ record { value = value; order = TraversalOrder.Continue; changed = false } }
    {
        Transformed {
            value,
            order: TraversalOrder::Continue,
            changed: false,
        }
    }

    /// The value.
    pub fn into_inner(self) -> T
        ensures { result ≡ self.value }
    {
        self.value
    }

    /// What `f` gives for the value, with the same order and `changed`.
    pub fn map<O, F: FnOnce(T) -> O>(self, f: F) -> Transformed<O>
        requires { F.pre f self.value }
        ensures value { F.post f self.value result.value }
        ensures order { result.order ≡ self.order }
        ensures changed { result.changed ≡ self.changed }
    {
        Transformed {
            value: f(self.value),
            order: self.order,
            changed: self.changed,
        }
    }
}
