// Matches of texts with patterns.
ghost use Rattle.std.specs.Prelude.{◌≡◌, length, map, IfOk, ◌<◌, Some, Decides, fold};
ghost use Rattle.std.specs.List.{slice_get};
ghost use Rattle.vx_expr.specs.Trees.{like, children_of};
ghost use Rattle.vx_expr.specs.Nodes.{like_tree, like_child, like_pattern, like_negated, like_fold_case};
ghost use Rattle.vx_expr.specs.Children.{with_children_of};
ghost use Rattle.vx_expr.specs.Answers.{AnswersBy};
ghost use Rattle.vx_expr.specs.declared.errors.ExprError.TheVariants.{WrongChildren};
ghost use Rattle.std.specs.Cmp.{on_per, on_equiv, partial_equiv_from_equiv};
ghost use Rattle.std.proofs.Common.{ap};
ghost use Rattle.vx_expr.specs.Equal.{tree_eq};
ghost use Rattle.vx_expr.specs.EqualLaws.{tree_eq_equiv, tree_decides};
ghost use Rattle.vx_expr.specs.Feeds.{own_feed, tree_feed};

use crate::children::two_children;
use crate::equality::same_like;
use crate::errors::ExprError;
use crate::expressions::{Expr, ExprRef};
use std::alloc::{AllocError, Global};
use std::hash::{Hash, Hasher};
use vx_dtype::Mem;

/// Whether a text matches a pattern.
#[cycle(exprs)]
#[derive(Debug, Drop)]
pub struct LikeExpr {
    child: ExprRef,
    pattern: ExprRef,
    negated: bool,
    case_insensitive: bool,
}

impl LikeExpr {
    /// The test whether the text matches the pattern.
    pub fn new(child: ExprRef, pattern: ExprRef, negated: bool, case_insensitive: bool) -> LikeExpr
        ensures { like_tree result ≡ like child pattern negated case_insensitive }
    {
        LikeExpr {
            child,
            pattern,
            negated,
            case_insensitive,
        }
    }

    /// The same as an expression.
    pub fn new_expr(
        alloc: Global,
        child: ExprRef,
        pattern: ExprRef,
        negated: bool,
        case_insensitive: bool,
    ) -> Mem<ExprRef>
        ensures { IfOk result (λ made. made ≡ like child pattern negated case_insensitive) }
    {
        ExprRef::new(
            alloc,
            Expr::Like(LikeExpr::new(child, pattern, negated, case_insensitive)),
        )
    }

    /// The text.
    pub fn child(&self) -> &ExprRef
        ensures { result.now ≡ like_child self.now }
    {
        &self.child
    }

    /// The pattern.
    pub fn pattern(&self) -> &ExprRef
        ensures { result.now ≡ like_pattern self.now }
    {
        &self.pattern
    }

    /// Whether the answer is inverted.
    pub fn negated(&self) -> bool
        ensures { result ≡ like_negated self.now }
    {
        self.negated
    }

    /// Whether the match disregards the case of ASCII letters.
    pub fn case_insensitive(&self) -> bool
        ensures { result ≡ like_fold_case self.now }
    {
        self.case_insensitive
    }

    /// The children in order.
    pub fn child_list(&self, alloc: Global) -> Mem<Vec<&ExprRef>>
        ensures { IfOk result (λ list. map (λ e. e.now) list.items ≡ children_of (like_tree self.now)) }
    {
        Ok(vec![in alloc; &self.child, &self.pattern]?)
    }

    /// The child at this place, counted from 0.
    pub(crate) fn child_at(&self, i: usize) -> &ExprRef
        requires { i < length (children_of (like_tree self.now)) }
        ensures { slice_get (children_of (like_tree self.now)) i ≡ Some result.now }
    {
        match i {
            0 => &self.child,
            _ => &self.pattern,
        }
    }

    /// The node with these children in place of its own.
    ///
    /// Refuses with WrongChildren exactly where there are more or fewer children than the node has.
    pub fn with_children(&self, children: Vec<ExprRef>) -> Result<LikeExpr, ExprError>
        ensures { AnswersBy like_tree WrongChildren (with_children_of (like_tree self.now) children.items) result }
    {
        let Some((child, pattern)) = two_children(children) else {
            return Err(ExprError::WrongChildren);
        };
        Ok(LikeExpr {
            child,
            pattern,
            negated: self.negated,
            case_insensitive: self.case_insensitive,
        })
    }

    /// Feeds a hash the number of the kind and the parts that are no expressions.
    pub(crate) fn feed_own<H: Hasher>(&self, state: &mut H)
        ensures { state.new ≡ fold H.write state.old (own_feed (like_tree self.now)) }
    {
        state.write_u8(6);
        self.negated.hash(state);
        self.case_insensitive.hash(state);
    }
}

impl Clone for LikeExpr {
    ghost is_clone = { λ node copy. like_tree copy ≡ like_tree node };

    fn clone(&self) -> Result<LikeExpr, AllocError> {
        Ok(LikeExpr {
            child: self.child.clone()?,
            pattern: self.pattern.clone()?,
            negated: self.negated,
            case_insensitive: self.case_insensitive,
        })
    }
}

impl PartialEq for LikeExpr {
    ghost eq = { λ x y. tree_eq (like_tree x) (like_tree y) };

    ghost laws = { on_per like_tree (partial_equiv_from_equiv tree_eq_equiv) };

    #[tactic(auto, using(crate::specs::EqualLaws::tree_decides))]
    fn eq(&self, other: &LikeExpr) -> bool
        ensures gives { result ≡ tree_eq (like_tree self.now) (like_tree other.now) }
        ensures same { Decides result (like_tree self.now ≡ like_tree other.now) }
    {
        same_like(self, other)
    }
}

impl Eq for LikeExpr {
    ghost laws = { on_equiv like_tree tree_eq_equiv };
}

impl Hash for LikeExpr {
    ghost hash_input = { λ node. tree_feed (like_tree node) };

    ghost respects_eq = { λ x y e. ap tree_feed ((tree_decides (like_tree x) (like_tree y)).0 e) };

    #[tactic(auto, unfolding(crate::specs::Feeds::tree_feed))]
    fn hash<H: Hasher>(&self, state: &mut H) {
        self.feed_own(state);
        self.child.hash(state);
        self.pattern.hash(state);
    }
}
