// Constants.
ghost use Rattle.std.specs.Prelude.{◌≡◌, length, map, IfOk, option_map, option_copied, Decides, fold};
ghost use Rattle.vx_expr.specs.Trees.{literal, children_of};
ghost use Rattle.vx_expr.specs.Nodes.{literal_tree, literal_value};
ghost use Rattle.vx_expr.specs.Children.{with_children_of};
ghost use Rattle.vx_expr.specs.Answers.{AnswersBy};
ghost use Rattle.vx_expr.specs.declared.errors.ExprError.TheVariants.{WrongChildren};
ghost use Rattle.vx_expr.specs.Children.{literal_of};
ghost use Rattle.std.specs.Cmp.{on_per, on_equiv, partial_equiv_from_equiv};
ghost use Rattle.std.proofs.Common.{ap};
ghost use Rattle.vx_expr.specs.Equal.{tree_eq};
ghost use Rattle.vx_expr.specs.EqualLaws.{tree_eq_equiv, tree_decides};
ghost use Rattle.vx_expr.specs.Feeds.{own_feed, tree_feed};

use crate::errors::ExprError;
use crate::expressions::{Expr, ExprRef};
use std::alloc::{AllocError, Global};
use std::hash::{Hash, Hasher};
use vx_dtype::{Mem, Scalar};

/// A constant.
#[derive(Debug, Drop)]
pub struct LiteralExpr {
    value: Scalar,
}

impl LiteralExpr {
    /// This constant.
    pub fn new(value: Scalar) -> LiteralExpr
        ensures { literal_tree result ≡ literal value }
    {
        LiteralExpr { value }
    }

    /// The same as an expression.
    pub fn new_expr(alloc: Global, value: Scalar) -> Mem<ExprRef>
        ensures { IfOk result (λ made. made ≡ literal value) }
    {
        ExprRef::new(alloc, Expr::Literal(LiteralExpr::new(value)))
    }

    /// The constant.
    pub fn value(&self) -> &Scalar
        ensures { result.now ≡ literal_value self.now }
    {
        &self.value
    }

    /// The constant that an expression is, and None where it is another kind of expression.
    pub fn maybe_from(expr: &ExprRef) -> Option<&LiteralExpr>
        ensures { option_map literal_value (option_copied result) ≡ literal_of expr.now }
    {
        match expr.expr() {
            Expr::Literal(node) => Some(node),
            _ => None,
        }
    }

    /// The children in order.
    pub fn child_list(&self, alloc: Global) -> Mem<Vec<&ExprRef>>
        ensures { IfOk result (λ list. map (λ e. e.now) list.items ≡ children_of (literal_tree self.now)) }
    {
        Ok(vec![in alloc]?)
    }

    /// The node with these children in place of its own.
    ///
    /// Refuses with WrongChildren exactly where there are more or fewer children than the node has.
    pub fn with_children(&self, children: Vec<ExprRef>) -> Result<LiteralExpr, ExprError>
        ensures { AnswersBy literal_tree WrongChildren (with_children_of (literal_tree self.now) children.items) result }
    {
        if !children.is_empty() {
            return Err(ExprError::WrongChildren);
        }
        Ok(self.clone()?)
    }

    /// Feeds a hash the number of the kind and the parts that are no expressions.
    pub(crate) fn feed_own<H: Hasher>(&self, state: &mut H)
        ensures { state.new ≡ fold H.write state.old (own_feed (literal_tree self.now)) }
    {
        state.write_u8(1);
        self.value.hash(state);
    }
}

impl Clone for LiteralExpr {
    ghost is_clone = { λ node copy. literal_tree copy ≡ literal_tree node };

    fn clone(&self) -> Result<LiteralExpr, AllocError> {
        Ok(LiteralExpr {
            value: self.value.clone()?,
        })
    }
}

impl PartialEq for LiteralExpr {
    ghost eq = { λ x y. tree_eq (literal_tree x) (literal_tree y) };

    ghost laws = { on_per literal_tree (partial_equiv_from_equiv tree_eq_equiv) };

    #[tactic(auto, using(crate::specs::EqualLaws::tree_decides), unfolding(crate::specs::Equal::tree_eq))]
    fn eq(&self, other: &LiteralExpr) -> bool
        ensures gives { result ≡ tree_eq (literal_tree self.now) (literal_tree other.now) }
        ensures same { Decides result (literal_tree self.now ≡ literal_tree other.now) }
    {
        self.value == other.value
    }
}

impl Eq for LiteralExpr {
    ghost laws = { on_equiv literal_tree tree_eq_equiv };
}

impl Hash for LiteralExpr {
    ghost hash_input = { λ node. tree_feed (literal_tree node) };

    ghost respects_eq = { λ x y e. ap tree_feed ((tree_decides (literal_tree x) (literal_tree y)).0 e) };

    #[tactic(auto, unfolding(crate::specs::Feeds::tree_feed))]
    fn hash<H: Hasher>(&self, state: &mut H) {
        self.feed_own(state);
    }
}
