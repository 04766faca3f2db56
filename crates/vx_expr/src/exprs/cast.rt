// Casts.
ghost use Rattle.std.specs.Prelude.{◌≡◌, length, map, IfOk, Decides, fold};
ghost use Rattle.vx_dtype.specs.TypeViews.{type_view};
ghost use Rattle.vx_expr.specs.Trees.{cast, children_of};
ghost use Rattle.vx_expr.specs.Nodes.{cast_tree, cast_target, cast_child};
ghost use Rattle.vx_expr.specs.Children.{with_children_of};
ghost use Rattle.vx_expr.specs.Answers.{AnswersBy};
ghost use Rattle.vx_expr.specs.declared.errors.ExprError.TheVariants.{WrongChildren};
ghost use Rattle.std.specs.Cmp.{on_per, on_equiv, partial_equiv_from_equiv};
ghost use Rattle.std.proofs.Common.{ap};
ghost use Rattle.vx_expr.specs.Equal.{tree_eq};
ghost use Rattle.vx_expr.specs.EqualLaws.{tree_eq_equiv, tree_decides};
ghost use Rattle.vx_expr.specs.Feeds.{own_feed, tree_feed};

use crate::children::one_child;
use crate::errors::ExprError;
use crate::expressions::{Expr, ExprRef};
use std::alloc::{AllocError, Global};
use std::hash::{Hash, Hasher};
use vx_dtype::{DType, Mem};

/// A value in another type.
#[cycle(exprs)]
#[derive(Debug, Drop)]
pub struct CastExpr {
    child: ExprRef,
    target: DType,
}

impl CastExpr {
    /// The value in the target type.
    pub fn new(child: ExprRef, target: DType) -> CastExpr
        ensures { cast_tree result ≡ cast child (type_view target) }
    {
        CastExpr { child, target }
    }

    /// The same as an expression.
    pub fn new_expr(alloc: Global, child: ExprRef, target: DType) -> Mem<ExprRef>
        ensures { IfOk result (λ made. made ≡ cast child (type_view target)) }
    {
        ExprRef::new(alloc, Expr::Cast(CastExpr::new(child, target)))
    }

    /// The type that the value is cast to.
    pub fn target(&self) -> &DType
        ensures { type_view result.now ≡ cast_target self.now }
    {
        &self.target
    }

    /// The value.
    pub(crate) fn child(&self) -> &ExprRef
        ensures { result.now ≡ cast_child self.now }
    {
        &self.child
    }

    /// The operand alone.
    pub(crate) fn into_child(self) -> ExprRef
        ensures { result ≡ cast_child self }
    {
        self.child
    }

    /// The children in order.
    pub fn child_list(&self, alloc: Global) -> Mem<Vec<&ExprRef>>
        ensures { IfOk result (λ list. map (λ e. e.now) list.items ≡ children_of (cast_tree self.now)) }
    {
        Ok(vec![in alloc; &self.child]?)
    }

    /// The node with these children in place of its own.
    ///
    /// Refuses with WrongChildren exactly where there are more or fewer children than the node has.
    pub fn with_children(&self, children: Vec<ExprRef>) -> Result<CastExpr, ExprError>
        ensures { AnswersBy cast_tree WrongChildren (with_children_of (cast_tree self.now) children.items) result }
    {
        let Some(child) = one_child(children) else {
            return Err(ExprError::WrongChildren);
        };
        Ok(CastExpr {
            child,
            target: self.target.clone()?,
        })
    }

    /// Feeds a hash the number of the kind and the parts that are no expressions.
    pub(crate) fn feed_own<H: Hasher>(&self, state: &mut H)
        ensures { state.new ≡ fold H.write state.old (own_feed (cast_tree self.now)) }
    {
        state.write_u8(8);
        self.target.hash(state);
    }
}

impl Clone for CastExpr {
    ghost is_clone = { λ node copy. cast_tree copy ≡ cast_tree node };

    fn clone(&self) -> Result<CastExpr, AllocError> {
        Ok(CastExpr {
            child: self.child.clone()?,
            target: self.target.clone()?,
        })
    }
}

impl PartialEq for CastExpr {
    ghost eq = { λ x y. tree_eq (cast_tree x) (cast_tree y) };

    ghost laws = { on_per cast_tree (partial_equiv_from_equiv tree_eq_equiv) };

    #[tactic(auto, using(crate::specs::EqualLaws::tree_decides), unfolding(crate::specs::Equal::tree_eq))]
    fn eq(&self, other: &CastExpr) -> bool
        ensures gives { result ≡ tree_eq (cast_tree self.now) (cast_tree other.now) }
        ensures same { Decides result (cast_tree self.now ≡ cast_tree other.now) }
    {
        self.target == other.target && self.child == other.child
    }
}

impl Eq for CastExpr {
    ghost laws = { on_equiv cast_tree tree_eq_equiv };
}

impl Hash for CastExpr {
    ghost hash_input = { λ node. tree_feed (cast_tree node) };

    ghost respects_eq = { λ x y e. ap tree_feed ((tree_decides (cast_tree x) (cast_tree y)).0 e) };

    #[tactic(auto, unfolding(crate::specs::Feeds::tree_feed))]
    fn hash<H: Hasher>(&self, state: &mut H) {
        self.feed_own(state);
        self.child.hash(state);
    }
}
