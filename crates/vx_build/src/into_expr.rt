// The expression that a node of a kind is.
ghost use Rattle.std.specs.Prelude.{◌≡◌, IfOk};
ghost use Rattle.vx_expr.specs.Trees.{Tree};
ghost use Rattle.vx_expr.specs.Nodes.{between_tree, binary_tree, cast_tree, dynamic_tree, item_tree, is_null_tree, like_tree};
ghost use Rattle.vx_expr.specs.Nodes.{contains_tree, literal_tree, merge_tree, not_tree, root_tree, select_tree};
ghost use Rattle.vx_expr.specs.Packed.{pack_tree};

use std::alloc::Global;
use vx_dtype::Mem;
use vx_expr::{
    BetweenExpr, BinaryExpr, CastExpr, DynamicComparisonExpr, Expr, ExprRef, GetItemExpr,
    IsNullExpr, LikeExpr, ListContainsExpr, LiteralExpr, MergeExpr, NotExpr, PackExpr, RootExpr,
    SelectExpr,
};

/// The expression with a node of some kind at its head.
pub trait IntoExpr {
    ghost tree: { Self → Tree };

    /// The expression with this node at its head.
    fn into_expr(self, alloc: Global) -> Mem<ExprRef>
        ensures { IfOk result (λ made. made ≡ tree self) };
}

impl IntoExpr for BetweenExpr {
    ghost tree = { between_tree };

    fn into_expr(self, alloc: Global) -> Mem<ExprRef> {
        ExprRef::new(alloc, Expr::Between(self))
    }
}

impl IntoExpr for BinaryExpr {
    ghost tree = { binary_tree };

    fn into_expr(self, alloc: Global) -> Mem<ExprRef> {
        ExprRef::new(alloc, Expr::Binary(self))
    }
}

impl IntoExpr for CastExpr {
    ghost tree = { cast_tree };

    fn into_expr(self, alloc: Global) -> Mem<ExprRef> {
        ExprRef::new(alloc, Expr::Cast(self))
    }
}

impl IntoExpr for DynamicComparisonExpr {
    ghost tree = { dynamic_tree };

    fn into_expr(self, alloc: Global) -> Mem<ExprRef> {
        ExprRef::new(alloc, Expr::Dynamic(self))
    }
}

impl IntoExpr for GetItemExpr {
    ghost tree = { item_tree };

    fn into_expr(self, alloc: Global) -> Mem<ExprRef> {
        ExprRef::new(alloc, Expr::GetItem(self))
    }
}

impl IntoExpr for IsNullExpr {
    ghost tree = { is_null_tree };

    fn into_expr(self, alloc: Global) -> Mem<ExprRef> {
        ExprRef::new(alloc, Expr::IsNull(self))
    }
}

impl IntoExpr for LikeExpr {
    ghost tree = { like_tree };

    fn into_expr(self, alloc: Global) -> Mem<ExprRef> {
        ExprRef::new(alloc, Expr::Like(self))
    }
}

impl IntoExpr for ListContainsExpr {
    ghost tree = { contains_tree };

    fn into_expr(self, alloc: Global) -> Mem<ExprRef> {
        ExprRef::new(alloc, Expr::ListContains(self))
    }
}

impl IntoExpr for LiteralExpr {
    ghost tree = { literal_tree };

    fn into_expr(self, alloc: Global) -> Mem<ExprRef> {
        ExprRef::new(alloc, Expr::Literal(self))
    }
}

impl IntoExpr for MergeExpr {
    ghost tree = { merge_tree };

    fn into_expr(self, alloc: Global) -> Mem<ExprRef> {
        ExprRef::new(alloc, Expr::Merge(self))
    }
}

impl IntoExpr for NotExpr {
    ghost tree = { not_tree };

    fn into_expr(self, alloc: Global) -> Mem<ExprRef> {
        ExprRef::new(alloc, Expr::Not(self))
    }
}

impl IntoExpr for PackExpr {
    ghost tree = { pack_tree };

    fn into_expr(self, alloc: Global) -> Mem<ExprRef> {
        ExprRef::new(alloc, Expr::Pack(self))
    }
}

impl IntoExpr for RootExpr {
    ghost tree = { root_tree };

    fn into_expr(self, alloc: Global) -> Mem<ExprRef> {
        ExprRef::new(alloc, Expr::Root(self))
    }
}

impl IntoExpr for SelectExpr {
    ghost tree = { select_tree };

    fn into_expr(self, alloc: Global) -> Mem<ExprRef> {
        ExprRef::new(alloc, Expr::Select(self))
    }
}
