// Which kind a value is of, and the struct of an expression of a kind.
ghost use Rattle.std.specs.Prelude.{◌≡◌, Decides, option_copied};
ghost use Rattle.vx_expr.specs.Trees.{Tree};
ghost use Rattle.vx_wire.specs.Encodings.{encoding_of};
ghost use Rattle.vx_wire.specs.declared.encodings.ExprEncoding.{ExprEncoding};
ghost use Rattle.vx_kinds.specs.Picking.{IsPicked};

use crate::views::VTable;
use vx_expr::ExprRef;
use vx_wire::ExprEncoding;

/// What is of one kind of expressions.
pub trait OfKind {
    /// The kind.
    ghost kind: { Self → ExprEncoding };

    /// Whether the kind is `V`.
    fn is<V: VTable>(&self) -> bool
        ensures { Decides result (kind self.now ≡ V.kind) };
}

impl OfKind for ExprRef {
    ghost kind = { encoding_of };

    fn is<V: VTable>(&self) -> bool {
        V::pick(self).is_some()
    }
}

impl OfKind for ExprEncoding {
    ghost kind = { λ e. e };

    fn is<V: VTable>(&self) -> bool {
        *self == V::encoding()
    }
}

/// An expression, seen by the struct of its kind.
pub trait AsKind {
    /// The expression.
    ghost tree: { Self → Tree };

    /// The struct of an expression of the kind `V`, and None exactly where the expression is of another.
    fn as_opt<V: VTable>(&self) -> Option<&V::Expr>
        ensures { IsPicked V.kind V.tree (tree self.now) (option_copied result) };

    /// The struct of an expression of the kind `V`.
    fn as_<V: VTable>(&self) -> &V::Expr
        requires { encoding_of (tree self.now) ≡ V.kind }
        ensures { V.tree result.now ≡ tree self.now };
}

impl AsKind for ExprRef {
    ghost tree = { λ e. e };

    fn as_opt<V: VTable>(&self) -> Option<&V::Expr> {
        V::pick(self)
    }

    fn as_<V: VTable>(&self) -> &V::Expr {
        match V::pick(self) {
            Some(node) => node,
            None => unreachable!(),
        }
    }
}
