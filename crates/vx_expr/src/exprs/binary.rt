// Two operands under an operator.
ghost use Rattle.std.specs.Prelude.{◌≡◌, length, map, IfOk, ◌<◌, Some, Decides, fold};
ghost use Rattle.std.specs.List.{slice_get};
ghost use Rattle.vx_expr.specs.Trees.{binary, children_of};
ghost use Rattle.vx_expr.specs.Nodes.{binary_tree, binary_left, binary_operator, binary_right};
ghost use Rattle.vx_expr.specs.Children.{with_children_of};
ghost use Rattle.vx_expr.specs.Answers.{AnswersBy};
ghost use Rattle.vx_expr.specs.declared.errors.ExprError.TheVariants.{WrongChildren};
ghost use Rattle.std.specs.Cmp.{on_per, on_equiv, partial_equiv_from_equiv};
ghost use Rattle.std.proofs.Common.{ap};
ghost use Rattle.vx_expr.specs.Equal.{tree_eq};
ghost use Rattle.vx_expr.specs.EqualLaws.{tree_eq_equiv, tree_decides};
ghost use Rattle.vx_expr.specs.Feeds.{own_feed, tree_feed};

use crate::children::two_children;
use crate::equality::{feed_operands, same_binary};
use crate::errors::ExprError;
use crate::expressions::{Expr, ExprRef};
use crate::operators::Operator;
use std::alloc::{AllocError, Global};
use std::hash::{Hash, Hasher};
use vx_dtype::Mem;

/// Two operands under an operator.
#[cycle(exprs)]
#[derive(Debug, Drop)]
pub struct BinaryExpr {
    lhs: ExprRef,
    operator: Operator,
    rhs: ExprRef,
}

impl BinaryExpr {
    /// The operator between these operands.
    pub fn new(lhs: ExprRef, operator: Operator, rhs: ExprRef) -> BinaryExpr
        ensures { binary_tree result ≡ binary lhs operator rhs }
    {
        BinaryExpr { lhs, operator, rhs }
    }

    /// The same as an expression.
    pub fn new_expr(alloc: Global, lhs: ExprRef, operator: Operator, rhs: ExprRef) -> Mem<ExprRef>
        ensures { IfOk result (λ made. made ≡ binary lhs operator rhs) }
    {
        ExprRef::new(alloc, Expr::Binary(BinaryExpr::new(lhs, operator, rhs)))
    }

    /// The left operand.
    pub fn lhs(&self) -> &ExprRef
        ensures { result.now ≡ binary_left self.now }
    {
        &self.lhs
    }

    /// The operator.
    pub fn op(&self) -> Operator
        ensures { result ≡ binary_operator self.now }
    {
        self.operator
    }

    /// The right operand.
    pub fn rhs(&self) -> &ExprRef
        ensures { result.now ≡ binary_right self.now }
    {
        &self.rhs
    }

    /// Both operands, the left one first.
    pub(crate) fn into_operands(self) -> (ExprRef, ExprRef)
        ensures { result ≡ (binary_left self, binary_right self) }
    {
        (self.lhs, self.rhs)
    }

    /// The children in order.
    pub fn child_list(&self, alloc: Global) -> Mem<Vec<&ExprRef>>
        ensures { IfOk result (λ list. map (λ e. e.now) list.items ≡ children_of (binary_tree self.now)) }
    {
        Ok(vec![in alloc; &self.lhs, &self.rhs]?)
    }

    /// The child at this place, counted from 0.
    pub(crate) fn child_at(&self, i: usize) -> &ExprRef
        requires { i < length (children_of (binary_tree self.now)) }
        ensures { slice_get (children_of (binary_tree self.now)) i ≡ Some result.now }
    {
        match i {
            0 => &self.lhs,
            _ => &self.rhs,
        }
    }

    /// The node with these children in place of its own.
    ///
    /// Refuses with WrongChildren exactly where there are more or fewer children than the node has.
    pub fn with_children(&self, children: Vec<ExprRef>) -> Result<BinaryExpr, ExprError>
        ensures { AnswersBy binary_tree WrongChildren (with_children_of (binary_tree self.now) children.items) result }
    {
        let Some((lhs, rhs)) = two_children(children) else {
            return Err(ExprError::WrongChildren);
        };
        Ok(BinaryExpr {
            lhs,
            operator: self.operator,
            rhs,
        })
    }

    /// Feeds a hash the number of the kind and the parts that are no expressions.
    pub(crate) fn feed_own<H: Hasher>(&self, state: &mut H)
        ensures { state.new ≡ fold H.write state.old (own_feed (binary_tree self.now)) }
    {
        state.write_u8(3);
        state.write_u8(self.operator.number());
    }
}

impl Clone for BinaryExpr {
    ghost is_clone = { λ node copy. binary_tree copy ≡ binary_tree node };

    fn clone(&self) -> Result<BinaryExpr, AllocError> {
        Ok(BinaryExpr {
            lhs: self.lhs.clone()?,
            operator: self.operator,
            rhs: self.rhs.clone()?,
        })
    }
}

impl PartialEq for BinaryExpr {
    ghost eq = { λ x y. tree_eq (binary_tree x) (binary_tree y) };

    ghost laws = { on_per binary_tree (partial_equiv_from_equiv tree_eq_equiv) };

    #[tactic(auto, using(crate::specs::EqualLaws::tree_decides))]
    fn eq(&self, other: &BinaryExpr) -> bool
        ensures gives { result ≡ tree_eq (binary_tree self.now) (binary_tree other.now) }
        ensures same { Decides result (binary_tree self.now ≡ binary_tree other.now) }
    {
        same_binary(self, other)
    }
}

impl Eq for BinaryExpr {
    ghost laws = { on_equiv binary_tree tree_eq_equiv };
}

impl Hash for BinaryExpr {
    ghost hash_input = { λ node. tree_feed (binary_tree node) };

    ghost respects_eq = { λ x y e. ap tree_feed ((tree_decides (binary_tree x) (binary_tree y)).0 e) };

    #[tactic(auto, unfolding(crate::specs::Feeds::tree_feed))]
    fn hash<H: Hasher>(&self, state: &mut H) {
        self.feed_own(state);
        feed_operands(self, state);
    }
}
