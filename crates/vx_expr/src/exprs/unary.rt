// Operators on one operand: negations and tests for null.
ghost use Rattle.std.specs.Prelude.{◌≡◌, map, IfOk, Decides};
ghost use Rattle.vx_expr.specs.Trees.{children_of};
ghost use Rattle.vx_expr.specs.Nodes.{node_tree, unary_tree, unary_child};
ghost use Rattle.vx_expr.specs.UnaryOperators.{Unary, negation, null_test, operation, unary_number};
ghost use Rattle.vx_expr.specs.Children.{with_children_of};
ghost use Rattle.vx_expr.specs.Answers.{AnswersBy};
ghost use Rattle.vx_expr.specs.declared.errors.ExprError.TheVariants.{WrongChildren};
ghost use Rattle.std.specs.Cmp.{on_per, on_equiv, partial_equiv_from_equiv};
ghost use Rattle.std.proofs.Common.{ap};
ghost use Rattle.vx_expr.specs.Equal.{tree_eq};
ghost use Rattle.vx_expr.specs.EqualLaws.{tree_eq_equiv, tree_decides};
ghost use Rattle.vx_expr.specs.Feeds.{tree_feed};

use crate::children::one_child;
use crate::errors::ExprError;
use crate::expressions::{Expr, ExprRef};
use std::alloc::{AllocError, Global};
use std::hash::{Hash, Hasher};
use std::marker::PhantomData;
use vx_dtype::Mem;

/// An operator on one operand, as a type.
pub trait UnaryOperator: Sized + Drop {
    /// Which operator it is, known to the spec.
    ghost operator: { Unary };

    /// The number of the kind.
    fn number() -> u8
        ensures { result ≡ unary_number operator };

    /// The operator on this operand, as a node.
    fn node(child: ExprRef) -> Expr
        ensures { node_tree result ≡ operation operator child };
}

/// The operator of negations.
#[derive(Debug, Drop)]
pub struct Negation;

/// The operator of tests for null.
#[derive(Debug, Drop)]
pub struct NullTest;

impl UnaryOperator for Negation {
    ghost operator = { negation };

    fn number() -> u8 {
        4
    }

    fn node(child: ExprRef) -> Expr {
        Expr::Not(NotExpr::new(child))
    }
}

impl UnaryOperator for NullTest {
    ghost operator = { null_test };

    fn number() -> u8 {
        5
    }

    fn node(child: ExprRef) -> Expr {
        Expr::IsNull(IsNullExpr::new(child))
    }
}

/// An operator on one operand.
///
/// The operand has a type parameter of its own, so that the struct stands outside of the cycle of `Expr` and `ExprRef`,
/// whose types have no parameters.
#[derive(Debug, Drop)]
pub struct UnaryExpr<O, C> {
    child: C,
    operator: PhantomData<O>,
}

/// True and false exchanged.
pub type NotExpr = UnaryExpr<Negation, ExprRef>;

/// Whether a value is null.
pub type IsNullExpr = UnaryExpr<NullTest, ExprRef>;

impl<O> UnaryExpr<O, ExprRef> {
    /// The operator on this operand.
    pub fn new(child: ExprRef) -> UnaryExpr<O, ExprRef>
        ensures { unary_child result ≡ child }
    {
        UnaryExpr {
            child,
            operator: PhantomData,
        }
    }
}

impl<O: UnaryOperator> UnaryExpr<O, ExprRef> {
    /// The operator on this operand, as an expression.
    pub fn new_expr(alloc: Global, child: ExprRef) -> Mem<ExprRef>
        ensures { IfOk result (λ made. made ≡ operation O.operator child) }
    {
        ExprRef::new(alloc, O::node(child))
    }

    /// The operand.
    pub fn child(&self) -> &ExprRef
        ensures { result.now ≡ unary_child self.now }
    {
        &self.child
    }

    /// The operand alone.
    pub(crate) fn into_child(self) -> ExprRef
        ensures { result ≡ unary_child self }
    {
        self.child
    }

    /// The children in order.
    #[tactic(auto, using(crate::proofs::UnaryLemmas::operation_children))]
    pub fn child_list(&self, alloc: Global) -> Mem<Vec<&ExprRef>>
        ensures { IfOk result (λ list. map (λ e. e.now) list.items ≡ children_of (unary_tree O.operator self.now)) }
    {
        Ok(vec![in alloc; &self.child]?)
    }

    /// The node with these children in place of its own.
    ///
    /// Refuses with WrongChildren exactly where there are more or fewer children than the node has.
    #[tactic(auto, using(crate::proofs::UnaryLemmas::operation_with_children))]
    pub fn with_children(&self, children: Vec<ExprRef>) -> Result<UnaryExpr<O, ExprRef>, ExprError>
        ensures { AnswersBy (unary_tree O.operator) WrongChildren (with_children_of (unary_tree O.operator self.now) children.items) result }
    {
        let Some(child) = one_child(children) else {
            return Err(ExprError::WrongChildren);
        };
        Ok(UnaryExpr::new(child))
    }
}

impl<O: UnaryOperator> Clone for UnaryExpr<O, ExprRef> {
    ghost is_clone = { λ node copy. unary_tree O.operator copy ≡ unary_tree O.operator node };

    fn clone(&self) -> Result<UnaryExpr<O, ExprRef>, AllocError> {
        Ok(UnaryExpr::new(self.child.clone()?))
    }
}

impl<O: UnaryOperator> PartialEq for UnaryExpr<O, ExprRef> {
    ghost eq = { λ x y. tree_eq (unary_tree O.operator x) (unary_tree O.operator y) };

    ghost laws = { on_per (unary_tree O.operator) (partial_equiv_from_equiv tree_eq_equiv) };

    #[tactic(auto, using(crate::specs::EqualLaws::tree_decides, crate::proofs::UnaryLemmas::operation_eq))]
    fn eq(&self, other: &UnaryExpr<O, ExprRef>) -> bool
        ensures gives { result ≡ tree_eq (unary_tree O.operator self.now) (unary_tree O.operator other.now) }
        ensures same { Decides result (unary_tree O.operator self.now ≡ unary_tree O.operator other.now) }
    {
        self.child == other.child
    }
}

impl<O: UnaryOperator> Eq for UnaryExpr<O, ExprRef> {
    ghost laws = { on_equiv (unary_tree O.operator) tree_eq_equiv };
}

impl<O: UnaryOperator> Hash for UnaryExpr<O, ExprRef> {
    ghost hash_input = { λ node. tree_feed (unary_tree O.operator node) };

    ghost respects_eq = { λ x y e. ap tree_feed ((tree_decides (unary_tree O.operator x) (unary_tree O.operator y)).0 e) };

    #[tactic(auto, using(crate::proofs::UnaryLemmas::operation_feed))]
    fn hash<H: Hasher>(&self, state: &mut H) {
        state.write_u8(O::number());
        self.child.hash(state);
    }
}
