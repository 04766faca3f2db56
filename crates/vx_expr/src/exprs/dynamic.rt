// Comparisons with the value of a slot.
ghost use Rattle.std.specs.Prelude.{◌≡◌, length, map, IfOk, option_copied, Decides, fold};
ghost use Rattle.vx_dtype.specs.TypeViews.{type_view};
ghost use Rattle.vx_expr.specs.Trees.{dynamic, children_of};
ghost use Rattle.vx_expr.specs.Nodes.{dynamic_tree, dynamic_operator, dynamic_slot, dynamic_dtype, dynamic_default, dynamic_left};
ghost use Rattle.vx_expr.specs.Children.{with_children_of};
ghost use Rattle.vx_expr.specs.Answers.{AnswersBy};
ghost use Rattle.vx_expr.specs.declared.errors.ExprError.TheVariants.{WrongChildren};
ghost use Rattle.vx_expr.specs.Slots.{slot_held};
ghost use Rattle.std.specs.Cmp.{on_per, on_equiv, partial_equiv_from_equiv};
ghost use Rattle.std.proofs.Common.{ap};
ghost use Rattle.vx_expr.specs.Equal.{tree_eq};
ghost use Rattle.vx_expr.specs.EqualLaws.{tree_eq_equiv, tree_decides};
ghost use Rattle.vx_expr.specs.Feeds.{own_feed, tree_feed};

use crate::children::one_child;
use crate::equality::same_dynamic;
use crate::errors::ExprError;
use crate::expressions::{Expr, ExprRef};
use crate::operators::Operator;
use std::alloc::{AllocError, Global};
use std::hash::{Hash, Hasher};
use vx_dtype::{CompareOperator, DType, Mem, Scalar};

/// A comparison with the value that a slot holds when the expression is evaluated.
#[cycle(exprs)]
#[derive(Debug, Drop)]
pub struct DynamicComparisonExpr {
    lhs: ExprRef,
    operator: CompareOperator,
    slot: u32,
    rhs_dtype: DType,
    default: bool,
}

impl DynamicComparisonExpr {
    /// The comparison of the operand with the slot's value, or the default answer where the slot has none.
    pub fn new(
        lhs: ExprRef,
        operator: CompareOperator,
        slot: u32,
        rhs_dtype: DType,
        default: bool,
    ) -> DynamicComparisonExpr
        ensures { dynamic_tree result ≡ dynamic lhs operator slot (type_view rhs_dtype) default }
    {
        DynamicComparisonExpr {
            lhs,
            operator,
            slot,
            rhs_dtype,
            default,
        }
    }

    /// The same as an expression.
    pub fn new_expr(
        alloc: Global,
        lhs: ExprRef,
        operator: CompareOperator,
        slot: u32,
        rhs_dtype: DType,
        default: bool,
    ) -> Mem<ExprRef>
        ensures { IfOk result (λ made. made ≡ dynamic lhs operator slot (type_view rhs_dtype) default) }
    {
        ExprRef::new(
            alloc,
            Expr::Dynamic(DynamicComparisonExpr::new(lhs, operator, slot, rhs_dtype, default)),
        )
    }

    /// The comparison.
    pub fn operator(&self) -> CompareOperator
        ensures { result ≡ dynamic_operator self.now }
    {
        self.operator
    }

    /// The number of the slot, counted from 0.
    pub fn slot(&self) -> u32
        ensures { result ≡ dynamic_slot self.now }
    {
        self.slot
    }

    /// The type of the slot's value.
    pub fn rhs_dtype(&self) -> &DType
        ensures { type_view result.now ≡ dynamic_dtype self.now }
    {
        &self.rhs_dtype
    }

    /// The answer where the slot has no value.
    pub fn default_answer(&self) -> bool
        ensures { result ≡ dynamic_default self.now }
    {
        self.default
    }

    /// The operand.
    pub(crate) fn lhs(&self) -> &ExprRef
        ensures { result.now ≡ dynamic_left self.now }
    {
        &self.lhs
    }

    /// The value that the slot holds, None where it holds none, and past the end of the list.
    pub fn scalar<'a>(&self, slots: &'a [Option<Scalar>]) -> Option<&'a Scalar>
        ensures { option_copied result ≡ slot_held slots.now (dynamic_slot self.now) }
    {
        match slots.get(self.slot as usize) {
            Some(Some(held)) => Some(held),
            _ => None,
        }
    }

    /// The operand alone.
    pub(crate) fn into_child(self) -> ExprRef
        ensures { result ≡ dynamic_left self }
    {
        self.lhs
    }

    /// The children in order.
    pub fn child_list(&self, alloc: Global) -> Mem<Vec<&ExprRef>>
        ensures { IfOk result (λ list. map (λ e. e.now) list.items ≡ children_of (dynamic_tree self.now)) }
    {
        Ok(vec![in alloc; &self.lhs]?)
    }

    /// The node with these children in place of its own.
    ///
    /// Refuses with WrongChildren exactly where there are more or fewer children than the node has.
    pub fn with_children(&self, children: Vec<ExprRef>) -> Result<DynamicComparisonExpr, ExprError>
        ensures { AnswersBy dynamic_tree WrongChildren (with_children_of (dynamic_tree self.now) children.items) result }
    {
        let Some(lhs) = one_child(children) else {
            return Err(ExprError::WrongChildren);
        };
        Ok(DynamicComparisonExpr {
            lhs,
            operator: self.operator,
            slot: self.slot,
            rhs_dtype: self.rhs_dtype.clone()?,
            default: self.default,
        })
    }

    /// Feeds a hash the number of the kind and the parts that are no expressions.
    pub(crate) fn feed_own<H: Hasher>(&self, state: &mut H)
        ensures { state.new ≡ fold H.write state.old (own_feed (dynamic_tree self.now)) }
    {
        state.write_u8(13);
        state.write_u8(Operator::from(self.operator).number());
        self.slot.hash(state);
        self.rhs_dtype.hash(state);
        self.default.hash(state);
    }
}

impl Clone for DynamicComparisonExpr {
    ghost is_clone = { λ node copy. dynamic_tree copy ≡ dynamic_tree node };

    fn clone(&self) -> Result<DynamicComparisonExpr, AllocError> {
        Ok(DynamicComparisonExpr {
            lhs: self.lhs.clone()?,
            operator: self.operator,
            slot: self.slot,
            rhs_dtype: self.rhs_dtype.clone()?,
            default: self.default,
        })
    }
}

impl PartialEq for DynamicComparisonExpr {
    ghost eq = { λ x y. tree_eq (dynamic_tree x) (dynamic_tree y) };

    ghost laws = { on_per dynamic_tree (partial_equiv_from_equiv tree_eq_equiv) };

    #[tactic(auto, using(crate::specs::EqualLaws::tree_decides))]
    fn eq(&self, other: &DynamicComparisonExpr) -> bool
        ensures gives { result ≡ tree_eq (dynamic_tree self.now) (dynamic_tree other.now) }
        ensures same { Decides result (dynamic_tree self.now ≡ dynamic_tree other.now) }
    {
        same_dynamic(self, other)
    }
}

impl Eq for DynamicComparisonExpr {
    ghost laws = { on_equiv dynamic_tree tree_eq_equiv };
}

impl Hash for DynamicComparisonExpr {
    ghost hash_input = { λ node. tree_feed (dynamic_tree node) };

    ghost respects_eq = { λ x y e. ap tree_feed ((tree_decides (dynamic_tree x) (dynamic_tree y)).0 e) };

    #[tactic(auto, unfolding(crate::specs::Feeds::tree_feed))]
    fn hash<H: Hasher>(&self, state: &mut H) {
        self.feed_own(state);
        self.lhs.hash(state);
    }
}
