// Membership in lists.
ghost use Rattle.std.specs.Prelude.{◌≡◌, length, map, IfOk, ◌<◌, Some, Decides};
ghost use Rattle.std.specs.List.{slice_get};
ghost use Rattle.vx_expr.specs.Trees.{list_contains, children_of};
ghost use Rattle.vx_expr.specs.Nodes.{contains_tree, contains_list, contains_value};
ghost use Rattle.vx_expr.specs.Children.{with_children_of};
ghost use Rattle.vx_expr.specs.Answers.{AnswersBy};
ghost use Rattle.vx_expr.specs.declared.errors.ExprError.TheVariants.{WrongChildren};
ghost use Rattle.std.specs.Cmp.{on_per, on_equiv, partial_equiv_from_equiv};
ghost use Rattle.std.proofs.Common.{ap};
ghost use Rattle.vx_expr.specs.Equal.{tree_eq};
ghost use Rattle.vx_expr.specs.EqualLaws.{tree_eq_equiv, tree_decides};
ghost use Rattle.vx_expr.specs.Feeds.{tree_feed};

use crate::children::two_children;
use crate::equality::same_contains;
use crate::errors::ExprError;
use crate::expressions::{Expr, ExprRef};
use std::alloc::{AllocError, Global};
use std::hash::{Hash, Hasher};
use vx_dtype::Mem;

/// Whether a list holds a value.
#[cycle(exprs)]
#[derive(Debug, Drop)]
pub struct ListContainsExpr {
    list: ExprRef,
    value: ExprRef,
}

impl ListContainsExpr {
    /// The test whether the list holds the value.
    pub fn new(list: ExprRef, value: ExprRef) -> ListContainsExpr
        ensures { contains_tree result ≡ list_contains list value }
    {
        ListContainsExpr { list, value }
    }

    /// The same as an expression.
    pub fn new_expr(alloc: Global, list: ExprRef, value: ExprRef) -> Mem<ExprRef>
        ensures { IfOk result (λ made. made ≡ list_contains list value) }
    {
        ExprRef::new(
            alloc,
            Expr::ListContains(ListContainsExpr::new(list, value)),
        )
    }

    /// The list.
    pub fn list(&self) -> &ExprRef
        ensures { result.now ≡ contains_list self.now }
    {
        &self.list
    }

    /// The value that is sought.
    pub fn value(&self) -> &ExprRef
        ensures { result.now ≡ contains_value self.now }
    {
        &self.value
    }

    /// The children in order.
    pub fn child_list(&self, alloc: Global) -> Mem<Vec<&ExprRef>>
        ensures { IfOk result (λ list. map (λ e. e.now) list.items ≡ children_of (contains_tree self.now)) }
    {
        Ok(vec![in alloc; &self.list, &self.value]?)
    }

    /// The child at this place, counted from 0.
    pub(crate) fn child_at(&self, i: usize) -> &ExprRef
        requires { i < length (children_of (contains_tree self.now)) }
        ensures { slice_get (children_of (contains_tree self.now)) i ≡ Some result.now }
    {
        match i {
            0 => &self.list,
            _ => &self.value,
        }
    }

    /// The node with these children in place of its own.
    ///
    /// Refuses with WrongChildren exactly where there are more or fewer children than the node has.
    pub fn with_children(&self, children: Vec<ExprRef>) -> Result<ListContainsExpr, ExprError>
        ensures { AnswersBy contains_tree WrongChildren (with_children_of (contains_tree self.now) children.items) result }
    {
        let Some((list, value)) = two_children(children) else {
            return Err(ExprError::WrongChildren);
        };
        Ok(ListContainsExpr { list, value })
    }
}

impl Clone for ListContainsExpr {
    ghost is_clone = { λ node copy. contains_tree copy ≡ contains_tree node };

    fn clone(&self) -> Result<ListContainsExpr, AllocError> {
        Ok(ListContainsExpr {
            list: self.list.clone()?,
            value: self.value.clone()?,
        })
    }
}

impl PartialEq for ListContainsExpr {
    ghost eq = { λ x y. tree_eq (contains_tree x) (contains_tree y) };

    ghost laws = { on_per contains_tree (partial_equiv_from_equiv tree_eq_equiv) };

    #[tactic(auto, using(crate::specs::EqualLaws::tree_decides))]
    fn eq(&self, other: &ListContainsExpr) -> bool
        ensures gives { result ≡ tree_eq (contains_tree self.now) (contains_tree other.now) }
        ensures same { Decides result (contains_tree self.now ≡ contains_tree other.now) }
    {
        same_contains(self, other)
    }
}

impl Eq for ListContainsExpr {
    ghost laws = { on_equiv contains_tree tree_eq_equiv };
}

impl Hash for ListContainsExpr {
    ghost hash_input = { λ node. tree_feed (contains_tree node) };

    ghost respects_eq = { λ x y e. ap tree_feed ((tree_decides (contains_tree x) (contains_tree y)).0 e) };

    #[tactic(auto, unfolding(crate::specs::Feeds::tree_feed))]
    fn hash<H: Hasher>(&self, state: &mut H) {
        state.write_u8(9);
        self.list.hash(state);
        self.value.hash(state);
    }
}
