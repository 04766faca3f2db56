// The row.
ghost use Rattle.std.specs.Prelude.{◌≡◌, map, IfOk, Decides};
ghost use Rattle.vx_expr.specs.Trees.{root, children_of};
ghost use Rattle.vx_expr.specs.Nodes.{root_tree};
ghost use Rattle.vx_expr.specs.Children.{with_children_of};
ghost use Rattle.vx_expr.specs.Answers.{AnswersBy};
ghost use Rattle.vx_expr.specs.declared.errors.ExprError.TheVariants.{WrongChildren};
ghost use Rattle.std.specs.Cmp.{on_per, on_equiv, partial_equiv_from_equiv};
ghost use Rattle.std.proofs.Common.{ap};
ghost use Rattle.vx_expr.specs.Equal.{tree_eq};
ghost use Rattle.vx_expr.specs.EqualLaws.{tree_eq_equiv, tree_decides};
ghost use Rattle.vx_expr.specs.Feeds.{tree_feed};

use crate::errors::ExprError;
use crate::expressions::{Expr, ExprRef};
use std::alloc::{AllocError, Global};
use std::hash::{Hash, Hasher};
use vx_dtype::Mem;

/// The row.
#[derive(Debug, Drop)]
pub struct RootExpr;

impl RootExpr {
    /// The row.
    pub fn new() -> RootExpr
        ensures { root_tree result ≡ root }
    {
        RootExpr
    }

    /// The same as an expression.
    pub fn new_expr(alloc: Global) -> Mem<ExprRef>
        ensures { IfOk result (λ made. made ≡ root) }
    {
        ExprRef::new(alloc, Expr::Root(RootExpr))
    }

    /// The children in order, of which there are none.
    pub fn child_list(&self, alloc: Global) -> Mem<Vec<&ExprRef>>
        ensures { IfOk result (λ list. map (λ e. e.now) list.items ≡ children_of (root_tree self.now)) }
    {
        Ok(vec![in alloc]?)
    }

    /// The node with these children in place of its own.
    ///
    /// Refuses with WrongChildren exactly where there are children.
    pub fn with_children(&self, children: Vec<ExprRef>) -> Result<RootExpr, ExprError>
        ensures { AnswersBy root_tree WrongChildren (with_children_of (root_tree self.now) children.items) result }
    {
        if !children.is_empty() {
            return Err(ExprError::WrongChildren);
        }
        Ok(RootExpr)
    }
}

impl Clone for RootExpr {
    ghost is_clone = { λ node copy. root_tree copy ≡ root_tree node };

    fn clone(&self) -> Result<RootExpr, AllocError> {
        Ok(RootExpr)
    }
}

impl PartialEq for RootExpr {
    ghost eq = { λ x y. tree_eq (root_tree x) (root_tree y) };

    ghost laws = { on_per root_tree (partial_equiv_from_equiv tree_eq_equiv) };

    #[tactic(auto, using(crate::specs::EqualLaws::tree_decides), unfolding(crate::specs::Equal::tree_eq))]
    fn eq(&self, _other: &RootExpr) -> bool
        ensures gives { result ≡ tree_eq (root_tree self.now) (root_tree _other.now) }
        ensures same { Decides result (root_tree self.now ≡ root_tree _other.now) }
    {
        true
    }
}

impl Eq for RootExpr {
    ghost laws = { on_equiv root_tree tree_eq_equiv };
}

impl Hash for RootExpr {
    ghost hash_input = { λ node. tree_feed (root_tree node) };

    ghost respects_eq = { λ x y e. ap tree_feed ((tree_decides (root_tree x) (root_tree y)).0 e) };

    #[tactic(auto, unfolding(crate::specs::Feeds::tree_feed))]
    fn hash<H: Hasher>(&self, state: &mut H) {
        state.write_u8(0);
    }
}
