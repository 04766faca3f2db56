// Ranges.
ghost use Rattle.std.specs.Prelude.{◌≡◌, length, map, IfOk, ◌<◌, Some, Decides, fold};
ghost use Rattle.std.specs.List.{slice_get};
ghost use Rattle.vx_expr.specs.Trees.{between, children_of};
ghost use Rattle.vx_expr.specs.Nodes.{between_tree, between_as_binary, between_options, between_value, between_lower, between_upper};
ghost use Rattle.vx_expr.specs.Children.{with_children_of};
ghost use Rattle.vx_expr.specs.Answers.{AnswersBy};
ghost use Rattle.vx_expr.specs.declared.errors.ExprError.TheVariants.{WrongChildren};
ghost use Rattle.std.specs.Cmp.{on_per, on_equiv, partial_equiv_from_equiv};
ghost use Rattle.std.proofs.Common.{ap};
ghost use Rattle.vx_expr.specs.Equal.{tree_eq};
ghost use Rattle.vx_expr.specs.EqualLaws.{tree_eq_equiv, tree_decides};
ghost use Rattle.vx_expr.specs.Feeds.{own_feed, tree_feed};

use crate::children::three_children;
use crate::equality::{feed_strictness, same_between};
use crate::errors::ExprError;
use crate::expressions::{Expr, ExprRef};
use crate::exprs::binary::BinaryExpr;
use crate::operators::Operator;
use std::alloc::{AllocError, Global};
use std::hash::{Hash, Hasher};
use vx_dtype::{BetweenOptions, Mem};

/// Whether a value lies in a range.
#[cycle(exprs)]
#[derive(Debug, Drop)]
pub struct BetweenExpr {
    arr: ExprRef,
    lower: ExprRef,
    upper: ExprRef,
    options: BetweenOptions,
}

impl BetweenExpr {
    /// The test whether a value lies between these bounds.
    pub fn new(arr: ExprRef, lower: ExprRef, upper: ExprRef, options: BetweenOptions) -> BetweenExpr
        ensures { between_tree result ≡ between arr lower upper options }
    {
        BetweenExpr {
            arr,
            lower,
            upper,
            options,
        }
    }

    /// The same as an expression.
    pub fn new_expr(
        alloc: Global,
        arr: ExprRef,
        lower: ExprRef,
        upper: ExprRef,
        options: BetweenOptions,
    ) -> Mem<ExprRef>
        ensures { IfOk result (λ made. made ≡ between arr lower upper options) }
    {
        ExprRef::new(
            alloc,
            Expr::Between(BetweenExpr::new(arr, lower, upper, options)),
        )
    }

    /// Whether each bound is strict.
    pub fn options(&self) -> BetweenOptions
        ensures { result ≡ between_options self.now }
    {
        self.options
    }

    /// The two comparisons that the range stands for: the lower bound before the value, and the value before the upper bound.
    pub fn to_binary_expr(&self, alloc: Global) -> Mem<ExprRef>
        ensures { IfOk result (λ made. made ≡ between_as_binary self.now) }
    {
        let from = Operator::from(self.options.lower_strict.to_operator());
        let to = Operator::from(self.options.upper_strict.to_operator());
        let above = BinaryExpr::new_expr(alloc, self.lower.clone()?, from, self.arr.clone()?)?;
        let below = BinaryExpr::new_expr(alloc, self.arr.clone()?, to, self.upper.clone()?)?;
        BinaryExpr::new_expr(alloc, above, Operator::And, below)
    }

    /// The children in order.
    pub fn child_list(&self, alloc: Global) -> Mem<Vec<&ExprRef>>
        ensures { IfOk result (λ list. map (λ e. e.now) list.items ≡ children_of (between_tree self.now)) }
    {
        Ok(vec![in alloc; &self.arr, &self.lower, &self.upper]?)
    }

    /// The child at this place, counted from 0.
    pub(crate) fn child_at(&self, i: usize) -> &ExprRef
        requires { i < length (children_of (between_tree self.now)) }
        ensures { slice_get (children_of (between_tree self.now)) i ≡ Some result.now }
    {
        match i {
            0 => &self.arr,
            1 => &self.lower,
            _ => &self.upper,
        }
    }

    /// The node with these children in place of its own.
    ///
    /// Refuses with WrongChildren exactly where there are more or fewer children than the node has.
    pub fn with_children(&self, children: Vec<ExprRef>) -> Result<BetweenExpr, ExprError>
        ensures { AnswersBy between_tree WrongChildren (with_children_of (between_tree self.now) children.items) result }
    {
        let Some((arr, lower, upper)) = three_children(children) else {
            return Err(ExprError::WrongChildren);
        };
        Ok(BetweenExpr {
            arr,
            lower,
            upper,
            options: self.options,
        })
    }

    /// The value.
    pub(crate) fn arr(&self) -> &ExprRef
        ensures { result.now ≡ between_value self.now }
    {
        &self.arr
    }

    /// The lower bound.
    pub(crate) fn lower(&self) -> &ExprRef
        ensures { result.now ≡ between_lower self.now }
    {
        &self.lower
    }

    /// The upper bound.
    pub(crate) fn upper(&self) -> &ExprRef
        ensures { result.now ≡ between_upper self.now }
    {
        &self.upper
    }

    /// Feeds a hash the number of the kind and the parts that are no expressions.
    pub(crate) fn feed_own<H: Hasher>(&self, state: &mut H)
        ensures { state.new ≡ fold H.write state.old (own_feed (between_tree self.now)) }
    {
        state.write_u8(7);
        feed_strictness(self.options.lower_strict, state);
        feed_strictness(self.options.upper_strict, state);
    }
}

impl Clone for BetweenExpr {
    ghost is_clone = { λ node copy. between_tree copy ≡ between_tree node };

    fn clone(&self) -> Result<BetweenExpr, AllocError> {
        Ok(BetweenExpr {
            arr: self.arr.clone()?,
            lower: self.lower.clone()?,
            upper: self.upper.clone()?,
            options: self.options,
        })
    }
}

impl PartialEq for BetweenExpr {
    ghost eq = { λ x y. tree_eq (between_tree x) (between_tree y) };

    ghost laws = { on_per between_tree (partial_equiv_from_equiv tree_eq_equiv) };

    #[tactic(auto, using(crate::specs::EqualLaws::tree_decides))]
    fn eq(&self, other: &BetweenExpr) -> bool
        ensures gives { result ≡ tree_eq (between_tree self.now) (between_tree other.now) }
        ensures same { Decides result (between_tree self.now ≡ between_tree other.now) }
    {
        same_between(self, other)
    }
}

impl Eq for BetweenExpr {
    ghost laws = { on_equiv between_tree tree_eq_equiv };
}

impl Hash for BetweenExpr {
    ghost hash_input = { λ node. tree_feed (between_tree node) };

    ghost respects_eq = { λ x y e. ap tree_feed ((tree_decides (between_tree x) (between_tree y)).0 e) };

    #[tactic(auto, unfolding(crate::specs::Feeds::tree_feed))]
    fn hash<H: Hasher>(&self, state: &mut H) {
        self.feed_own(state);
        self.arr.hash(state);
        self.lower.hash(state);
        self.upper.hash(state);
    }
}
