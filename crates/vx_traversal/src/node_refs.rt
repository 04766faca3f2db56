//! Nodes behind the references that the walks hand over.
ghost use Rattle.std.specs.Prelude.{◌≡◌, ◌<◌, Some, length, slice_get};

use crate::nodes::Node;

// A node behind the reference that a walk hands over.
pub(crate) trait NodeRef: Copy {
    type Target: Node;

    // The node itself.
    ghost target: { Self → Self.Target };

    fn count(self) -> usize
        ensures { result ≡ length (Self.Target.children (target self)) };

    fn child(self, i: usize) -> Self
        requires { i < length (Self.Target.children (target self)) }
        ensures { slice_get (Self.Target.children (target self)) i ≡ Some (target result) };
}

impl<'a, T: Node> NodeRef for &'a T {
    type Target = T;

    ghost target = { λ node. node.now };

    fn count(self) -> usize {
        self.children_count()
    }

    fn child(self, i: usize) -> Self {
        self.node_child(i)
    }
}
