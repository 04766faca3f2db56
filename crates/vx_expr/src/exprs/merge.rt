// The fields of several structs.
ghost use Rattle.std.specs.Prelude.{◌≡◌, ◌<◌, length, map, Some, IfOk, Decides, fold};
ghost use Rattle.std.specs.List.{slice_get};
ghost use Rattle.vx_expr.specs.Trees.{merge, trees_of, children_of};
ghost use Rattle.vx_expr.specs.Nodes.{merge_tree, merge_values, merge_nullability};
ghost use Rattle.vx_expr.specs.Children.{with_children_of};
ghost use Rattle.vx_expr.specs.Answers.{AnswersBy};
ghost use Rattle.vx_expr.specs.declared.errors.ExprError.TheVariants.{WrongChildren};
ghost use Rattle.std.specs.Cmp.{on_per, on_equiv, partial_equiv_from_equiv};
ghost use Rattle.std.proofs.Common.{ap};
ghost use Rattle.vx_expr.specs.Equal.{tree_eq};
ghost use Rattle.vx_expr.specs.EqualLaws.{tree_eq_equiv, tree_decides};
ghost use Rattle.vx_expr.specs.Feeds.{own_feed, tree_feed};

use crate::children::child_in;
use crate::equality::{feed_list, same_list};
use crate::errors::ExprError;
use crate::expressions::{Expr, ExprRef};
use std::alloc::{AllocError, Global};
use std::hash::{Hash, Hasher};
use vx_dtype::{Mem, Nullability};

/// The fields of several structs, in order of first appearance; a later field of the same name replaces an earlier one in its place.
#[cycle(exprs)]
#[derive(Debug, Drop)]
pub struct MergeExpr {
    values: Vec<ExprRef>,
    nullability: Nullability,
}

impl MergeExpr {
    /// The fields of these structs, in a struct of a type with this nullability.
    pub fn new(values: Vec<ExprRef>, nullability: Nullability) -> MergeExpr
        ensures { merge_tree result ≡ merge (trees_of values.items) nullability }
    {
        MergeExpr {
            values,
            nullability,
        }
    }

    /// The same as an expression.
    pub fn new_expr(alloc: Global, values: Vec<ExprRef>, nullability: Nullability) -> Mem<ExprRef>
        ensures { IfOk result (λ made. made ≡ merge (trees_of values.items) nullability) }
    {
        ExprRef::new(alloc, Expr::Merge(MergeExpr::new(values, nullability)))
    }

    /// The nullability of the struct's type.
    pub fn nullability(&self) -> Nullability
        ensures { result ≡ merge_nullability self.now }
    {
        self.nullability
    }

    /// The structs.
    pub(crate) fn values(&self) -> &[ExprRef]
        ensures { result.now ≡ merge_values self.now }
    {
        self.values.as_slice()
    }

    /// The children in order.
    #[tactic(auto, using(crate::proofs::TreeLemmas::listed_trees_of))]
    pub fn child_list(&self, alloc: Global) -> Mem<Vec<&ExprRef>>
        ensures { IfOk result (λ list. map (λ e. e.now) list.items ≡ children_of (merge_tree self.now)) }
    {
        Ok(self.values.iter().collect(alloc)?)
    }

    /// The child at this place, counted from 0.
    #[tactic(auto, using(crate::proofs::TreeLemmas::listed_trees_of))]
    pub(crate) fn child_at(&self, i: usize) -> &ExprRef
        requires { i < length (children_of (merge_tree self.now)) }
        ensures { slice_get (children_of (merge_tree self.now)) i ≡ Some result.now }
    {
        child_in(self.values(), i)
    }

    /// The node with these children in place of its own.
    ///
    /// Refuses with WrongChildren exactly where there are more or fewer children than the node has.
    #[tactic(auto, using(crate::proofs::TreeLemmas::listed_trees_of))]
    pub fn with_children(&self, children: Vec<ExprRef>) -> Result<MergeExpr, ExprError>
        ensures { AnswersBy merge_tree WrongChildren (with_children_of (merge_tree self.now) children.items) result }
    {
        if children.len() != self.values.len() {
            return Err(ExprError::WrongChildren);
        }
        Ok(MergeExpr {
            values: children,
            nullability: self.nullability,
        })
    }

    /// Feeds a hash the number of the kind and the parts that are no expressions.
    pub(crate) fn feed_own<H: Hasher>(&self, state: &mut H)
        ensures { state.new ≡ fold H.write state.old (own_feed (merge_tree self.now)) }
    {
        state.write_u8(11);
        state.write_u8(self.nullability.number());
    }
}

impl Clone for MergeExpr {
    ghost is_clone = { λ node copy. merge_tree copy ≡ merge_tree node };

    fn clone(&self) -> Result<MergeExpr, AllocError> {
        Ok(MergeExpr {
            values: self.values.clone()?,
            nullability: self.nullability,
        })
    }
}

impl PartialEq for MergeExpr {
    ghost eq = { λ x y. tree_eq (merge_tree x) (merge_tree y) };

    ghost laws = { on_per merge_tree (partial_equiv_from_equiv tree_eq_equiv) };

    #[tactic(auto, using(crate::specs::EqualLaws::tree_decides))]
    fn eq(&self, other: &MergeExpr) -> bool
        ensures gives { result ≡ tree_eq (merge_tree self.now) (merge_tree other.now) }
        ensures same { Decides result (merge_tree self.now ≡ merge_tree other.now) }
    {
        same_merge(self, other)
    }
}

/// Whether two nodes are the same.
#[tactic(auto, unfolding(crate::specs::Equal::tree_eq))]
fn same_merge(left: &MergeExpr, right: &MergeExpr) -> bool
    ensures { result ≡ tree_eq (merge_tree left.now) (merge_tree right.now) }
{
    left.nullability == right.nullability && same_list(left.values(), right.values())
}

impl Eq for MergeExpr {
    ghost laws = { on_equiv merge_tree tree_eq_equiv };
}

impl Hash for MergeExpr {
    ghost hash_input = { λ node. tree_feed (merge_tree node) };

    ghost respects_eq = { λ x y e. ap tree_feed ((tree_decides (merge_tree x) (merge_tree y)).0 e) };

    #[tactic(auto, unfolding(crate::specs::Feeds::tree_feed))]
    fn hash<H: Hasher>(&self, state: &mut H) {
        self.feed_own(state);
        feed_list(self.values(), state);
    }
}
