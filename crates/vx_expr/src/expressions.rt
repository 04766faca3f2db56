// Expressions: a node by its kind, shared by the clones of the expression.
ghost use Rattle.std.specs.Prelude.{◌≡◌, IfOk};
ghost use Rattle.vx_expr.specs.Nodes.{node_tree};

use crate::exprs::between::BetweenExpr;
use crate::exprs::binary::BinaryExpr;
use crate::exprs::cast::CastExpr;
use crate::exprs::dynamic::DynamicComparisonExpr;
use crate::exprs::get_item::GetItemExpr;
use crate::exprs::like::LikeExpr;
use crate::exprs::list_contains::ListContainsExpr;
use crate::exprs::literal::LiteralExpr;
use crate::exprs::merge::MergeExpr;
use crate::exprs::pack::PackExpr;
use crate::exprs::root::RootExpr;
use crate::exprs::select::SelectExpr;
use crate::exprs::unary::{IsNullExpr, NotExpr};
use crate::leanings::leans_left;
use std::alloc::{AllocError, Global};
use std::marker::Model;
use std::rc::Rc;
use vx_dtype::Mem;

/// A node of an expression, by its kind.
#[cycle(exprs)]
#[derive(Debug, Drop)]
pub enum Expr {
    Between(BetweenExpr),
    Binary(BinaryExpr),
    Cast(CastExpr),
    Dynamic(DynamicComparisonExpr),
    GetItem(GetItemExpr),
    IsNull(IsNullExpr),
    Like(LikeExpr),
    ListContains(ListContainsExpr),
    Literal(LiteralExpr),
    Merge(MergeExpr),
    Not(NotExpr),
    Pack(PackExpr),
    Root(RootExpr),
    Select(SelectExpr),
}

/// An expression. Clones share its node. It is seen as its tree.
#[cycle(exprs)]
#[derive(Debug)]
pub struct ExprRef {
    expr: Rc<Expr>,
    alloc: Global,
}

impl Model for ExprRef {
    ghost use Rattle.std.specs.Prelude.{◌*◌};
    ghost use Rattle.std.proofs.Common.{arith};
    ghost use Rattle.vx_expr.specs.Trees.{Tree};
    ghost use Rattle.vx_expr.specs.Codes.{coded_tree};
    ghost use Rattle.vx_expr.specs.Heights.{height};

    ghost Value = { Tree };

    ghost coded = { coded_tree };

    ghost use Rattle.vx_expr.specs.Nodes.{node_tree};

    ghost view = { λ e. node_tree e.expr.value };

    ghost size = { λ e. 2 * height e };

    ghost use Rattle.vx_expr.specs.Depths.{deep_le-height};

    ghost size_decreases = { λ e h. omega (arith, deep_le-height e.expr.value) };
}

impl ExprRef {
    /// The expression with this node at its head.
    pub fn new(alloc: Global, expr: Expr) -> Mem<ExprRef>
        ensures { IfOk result (λ made. made ≡ node_tree expr) }
    {
        Ok(ExprRef {
            expr: Rc::new(alloc, expr)?,
            alloc,
        })
    }

    /// The allocator that the expression was made by: it makes lists of what is left to write where no other is given.
    pub(crate) fn alloc(&self) -> Global {
        self.alloc
    }

    /// The node at the head of the expression.
    pub fn expr(&self) -> &Expr
        ensures { node_tree result.now ≡ self.now }
    {
        &self.expr
    }
}

/// A loop drops the chain of operands and only children that hangs on the expression, so that a long one needs no call for each link.
impl Drop for ExprRef {
    #[cycle(dropping)]
    fn drop(mut self) {
        loop {
            let ExprRef { expr, alloc: _ } = self;
            let Some(node) = Rc::into_inner(expr) else {
                return;
            };
            match node {
                Expr::Binary(node) => {
                    let goes_left = leans_left(&node);
                    let (left, right) = node.into_operands();
                    if goes_left {
                        drop(right);
                        self = left;
                    } else {
                        drop(left);
                        self = right;
                    }
                }
                Expr::Cast(node) => self = node.into_child(),
                Expr::Dynamic(node) => self = node.into_child(),
                Expr::GetItem(node) => self = node.into_child(),
                Expr::IsNull(node) => self = node.into_child(),
                Expr::Not(node) => self = node.into_child(),
                Expr::Select(node) => self = node.into_child(),
                other => return drop(other),
            }
        }
    }
}

impl Clone for ExprRef {
    ghost is_clone = { λ expr copy. copy ≡ expr };

    fn clone(&self) -> Result<ExprRef, AllocError> {
        Ok(ExprRef {
            expr: self.expr.clone()?,
            alloc: self.alloc,
        })
    }
}

impl Clone for Expr {
    ghost is_clone = { λ expr copy. node_tree copy ≡ node_tree expr };

    fn clone(&self) -> Result<Expr, AllocError> {
        Ok(match self {
            Expr::Between(node) => Expr::Between(node.clone()?),
            Expr::Binary(node) => Expr::Binary(node.clone()?),
            Expr::Cast(node) => Expr::Cast(node.clone()?),
            Expr::Dynamic(node) => Expr::Dynamic(node.clone()?),
            Expr::GetItem(node) => Expr::GetItem(node.clone()?),
            Expr::IsNull(node) => Expr::IsNull(node.clone()?),
            Expr::Like(node) => Expr::Like(node.clone()?),
            Expr::ListContains(node) => Expr::ListContains(node.clone()?),
            Expr::Literal(node) => Expr::Literal(node.clone()?),
            Expr::Merge(node) => Expr::Merge(node.clone()?),
            Expr::Not(node) => Expr::Not(node.clone()?),
            Expr::Pack(node) => Expr::Pack(node.clone()?),
            Expr::Root(node) => Expr::Root(node.clone()?),
            Expr::Select(node) => Expr::Select(node.clone()?),
        })
    }
}
