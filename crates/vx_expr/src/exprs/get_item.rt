// Fields of structs.
ghost use Rattle.std.specs.Prelude.{◌≡◌, length, map, IfOk, Decides, fold};
ghost use Rattle.vx_expr.specs.Trees.{get_item, children_of};
ghost use Rattle.vx_expr.specs.Nodes.{item_tree, item_field, item_child};
ghost use Rattle.vx_expr.specs.Children.{with_children_of};
ghost use Rattle.vx_expr.specs.Answers.{AnswersBy};
ghost use Rattle.vx_expr.specs.declared.errors.ExprError.TheVariants.{WrongChildren};
ghost use Rattle.vx_expr.specs.Children.{is_get_item};
ghost use Rattle.std.specs.Cmp.{on_per, on_equiv, partial_equiv_from_equiv};
ghost use Rattle.std.proofs.Common.{ap};
ghost use Rattle.vx_expr.specs.Equal.{tree_eq};
ghost use Rattle.vx_expr.specs.EqualLaws.{tree_eq_equiv, tree_decides};
ghost use Rattle.vx_expr.specs.Feeds.{own_feed, tree_feed};

use crate::children::one_child;
use crate::errors::ExprError;
use crate::expressions::{Expr, ExprRef};
use std::alloc::{AllocError, Global};
use std::hash::{Hash, Hasher};
use vx_dtype::{FieldName, Mem};

/// A field of a struct.
#[cycle(exprs)]
#[derive(Debug, Drop)]
pub struct GetItemExpr {
    field: FieldName,
    child: ExprRef,
}

impl GetItemExpr {
    /// The field of this name in the struct.
    pub fn new(field: FieldName, child: ExprRef) -> GetItemExpr
        ensures { item_tree result ≡ get_item field child }
    {
        GetItemExpr { field, child }
    }

    /// The same as an expression.
    pub fn new_expr(alloc: Global, field: FieldName, child: ExprRef) -> Mem<ExprRef>
        ensures { IfOk result (λ made. made ≡ get_item field child) }
    {
        ExprRef::new(alloc, Expr::GetItem(GetItemExpr::new(field, child)))
    }

    /// The name of the field.
    pub fn field(&self) -> &FieldName
        ensures { result.now ≡ item_field self.now }
    {
        &self.field
    }

    /// The struct.
    pub fn child(&self) -> &ExprRef
        ensures { result.now ≡ item_child self.now }
    {
        &self.child
    }

    /// Whether an expression is a field of a struct.
    pub fn is(expr: &ExprRef) -> bool
        ensures { result ≡ is_get_item expr.now }
    {
        matches!(expr.expr(), Expr::GetItem(_))
    }

    /// The operand alone.
    pub(crate) fn into_child(self) -> ExprRef
        ensures { result ≡ item_child self }
    {
        self.child
    }

    /// The children in order.
    pub fn child_list(&self, alloc: Global) -> Mem<Vec<&ExprRef>>
        ensures { IfOk result (λ list. map (λ e. e.now) list.items ≡ children_of (item_tree self.now)) }
    {
        Ok(vec![in alloc; &self.child]?)
    }

    /// The node with these children in place of its own.
    ///
    /// Refuses with WrongChildren exactly where there are more or fewer children than the node has.
    pub fn with_children(&self, children: Vec<ExprRef>) -> Result<GetItemExpr, ExprError>
        ensures { AnswersBy item_tree WrongChildren (with_children_of (item_tree self.now) children.items) result }
    {
        let Some(child) = one_child(children) else {
            return Err(ExprError::WrongChildren);
        };
        Ok(GetItemExpr {
            field: self.field.clone()?,
            child,
        })
    }

    /// Feeds a hash the number of the kind and the parts that are no expressions.
    pub(crate) fn feed_own<H: Hasher>(&self, state: &mut H)
        ensures { state.new ≡ fold H.write state.old (own_feed (item_tree self.now)) }
    {
        state.write_u8(2);
        self.field.hash(state);
    }
}

impl Clone for GetItemExpr {
    ghost is_clone = { λ node copy. item_tree copy ≡ item_tree node };

    fn clone(&self) -> Result<GetItemExpr, AllocError> {
        Ok(GetItemExpr {
            field: self.field.clone()?,
            child: self.child.clone()?,
        })
    }
}

impl PartialEq for GetItemExpr {
    ghost eq = { λ x y. tree_eq (item_tree x) (item_tree y) };

    ghost laws = { on_per item_tree (partial_equiv_from_equiv tree_eq_equiv) };

    #[tactic(auto, using(crate::specs::EqualLaws::tree_decides), unfolding(crate::specs::Equal::tree_eq))]
    fn eq(&self, other: &GetItemExpr) -> bool
        ensures gives { result ≡ tree_eq (item_tree self.now) (item_tree other.now) }
        ensures same { Decides result (item_tree self.now ≡ item_tree other.now) }
    {
        self.field == other.field && self.child == other.child
    }
}

impl Eq for GetItemExpr {
    ghost laws = { on_equiv item_tree tree_eq_equiv };
}

impl Hash for GetItemExpr {
    ghost hash_input = { λ node. tree_feed (item_tree node) };

    ghost respects_eq = { λ x y e. ap tree_feed ((tree_decides (item_tree x) (item_tree y)).0 e) };

    #[tactic(auto, unfolding(crate::specs::Feeds::tree_feed))]
    fn hash<H: Hasher>(&self, state: &mut H) {
        self.feed_own(state);
        self.child.hash(state);
    }
}
