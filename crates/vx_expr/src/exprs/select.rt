// Some fields of a struct.
ghost use Rattle.std.specs.Prelude.{◌≡◌, length, map, IfOk, Decides, fold};
ghost use Rattle.vx_expr.specs.Trees.{select, children_of};
ghost use Rattle.vx_expr.specs.Nodes.{select_tree, select_fields, select_child};
ghost use Rattle.vx_expr.specs.Children.{with_children_of};
ghost use Rattle.vx_expr.specs.Answers.{AnswersBy};
ghost use Rattle.vx_expr.specs.declared.errors.ExprError.TheVariants.{WrongChildren, UnknownField};
ghost use Rattle.vx_expr.specs.Selections.{select_as_include};
ghost use Rattle.vx_expr.specs.Answers.{Answers};
ghost use Rattle.vx_expr.specs.declared.selections.FieldSelection.{FieldSelection};
ghost use Rattle.std.specs.Cmp.{on_per, on_equiv, partial_equiv_from_equiv};
ghost use Rattle.std.proofs.Common.{ap};
ghost use Rattle.vx_expr.specs.Equal.{tree_eq};
ghost use Rattle.vx_expr.specs.EqualLaws.{tree_eq_equiv, tree_decides};
ghost use Rattle.vx_expr.specs.Feeds.{own_feed, tree_feed};

use crate::children::one_child;
use crate::errors::ExprError;
use crate::expressions::{Expr, ExprRef};
use crate::selections::FieldSelection;
use std::alloc::{AllocError, Global};
use std::hash::{Hash, Hasher};
use vx_dtype::{FieldNames, Mem};

/// Some fields of a struct.
#[cycle(exprs)]
#[derive(Debug, Drop)]
pub struct SelectExpr {
    fields: FieldSelection,
    child: ExprRef,
}

impl SelectExpr {
    /// The chosen fields of the struct.
    pub fn new(fields: FieldSelection, child: ExprRef) -> SelectExpr
        ensures { select_tree result ≡ select fields child }
    {
        SelectExpr { fields, child }
    }

    /// The same as an expression.
    pub fn new_expr(alloc: Global, fields: FieldSelection, child: ExprRef) -> Mem<ExprRef>
        ensures { IfOk result (λ made. made ≡ select fields child) }
    {
        ExprRef::new(alloc, Expr::Select(SelectExpr::new(fields, child)))
    }

    /// The choice of fields.
    pub fn selection(&self) -> &FieldSelection
        ensures { result.now ≡ select_fields self.now }
    {
        &self.fields
    }

    /// The struct.
    pub fn child(&self) -> &ExprRef
        ensures { result.now ≡ select_child self.now }
    {
        &self.child
    }

    /// These fields of the struct, in their listed order. Typing refuses a name that stands twice.
    pub fn include_expr(alloc: Global, columns: FieldNames, child: ExprRef) -> Mem<ExprRef>
        ensures { IfOk result (λ made. made ≡ select (FieldSelection.Include columns) child) }
    {
        SelectExpr::new_expr(alloc, FieldSelection::Include(columns), child)
    }

    /// All fields of the struct but these, in the struct's order. A name may stand twice among these.
    pub fn exclude_expr(alloc: Global, columns: FieldNames, child: ExprRef) -> Mem<ExprRef>
        ensures { IfOk result (λ made. made ≡ select (FieldSelection.Exclude columns) child) }
    {
        SelectExpr::new_expr(alloc, FieldSelection::Exclude(columns), child)
    }

    /// The same choice among these names, with the fields that it takes listed.
    ///
    /// Refuses with UnknownField exactly where a name of the choice, also an excluded one, isn't among these.
    pub fn as_include(&self, alloc: Global, names: &FieldNames) -> Result<ExprRef, ExprError>
        ensures { Answers UnknownField (select_as_include (select_fields self.now) (select_child self.now) names.now) result }
    {
        let taken = self.fields.as_include_names(alloc, names)?;
        Ok(SelectExpr::new_expr(alloc, FieldSelection::Include(taken), self.child.clone()?)?)
    }

    /// The operand alone.
    pub(crate) fn into_child(self) -> ExprRef
        ensures { result ≡ select_child self }
    {
        self.child
    }

    /// The children in order.
    pub fn child_list(&self, alloc: Global) -> Mem<Vec<&ExprRef>>
        ensures { IfOk result (λ list. map (λ e. e.now) list.items ≡ children_of (select_tree self.now)) }
    {
        Ok(vec![in alloc; &self.child]?)
    }

    /// The node with these children in place of its own.
    ///
    /// Refuses with WrongChildren exactly where there are more or fewer children than the node has.
    pub fn with_children(&self, children: Vec<ExprRef>) -> Result<SelectExpr, ExprError>
        ensures { AnswersBy select_tree WrongChildren (with_children_of (select_tree self.now) children.items) result }
    {
        let Some(child) = one_child(children) else {
            return Err(ExprError::WrongChildren);
        };
        Ok(SelectExpr {
            fields: self.fields.clone()?,
            child,
        })
    }

    /// Feeds a hash the number of the kind and the parts that are no expressions.
    pub(crate) fn feed_own<H: Hasher>(&self, state: &mut H)
        ensures { state.new ≡ fold H.write state.old (own_feed (select_tree self.now)) }
    {
        state.write_u8(12);
        self.fields.hash(state);
    }
}

impl Clone for SelectExpr {
    ghost is_clone = { λ node copy. select_tree copy ≡ select_tree node };

    fn clone(&self) -> Result<SelectExpr, AllocError> {
        Ok(SelectExpr {
            fields: self.fields.clone()?,
            child: self.child.clone()?,
        })
    }
}

impl PartialEq for SelectExpr {
    ghost eq = { λ x y. tree_eq (select_tree x) (select_tree y) };

    ghost laws = { on_per select_tree (partial_equiv_from_equiv tree_eq_equiv) };

    #[tactic(auto, using(crate::specs::EqualLaws::tree_decides), unfolding(crate::specs::Equal::tree_eq))]
    fn eq(&self, other: &SelectExpr) -> bool
        ensures gives { result ≡ tree_eq (select_tree self.now) (select_tree other.now) }
        ensures same { Decides result (select_tree self.now ≡ select_tree other.now) }
    {
        self.fields == other.fields && self.child == other.child
    }
}

impl Eq for SelectExpr {
    ghost laws = { on_equiv select_tree tree_eq_equiv };
}

impl Hash for SelectExpr {
    ghost hash_input = { λ node. tree_feed (select_tree node) };

    ghost respects_eq = { λ x y e. ap tree_feed ((tree_decides (select_tree x) (select_tree y)).0 e) };

    #[tactic(auto, unfolding(crate::specs::Feeds::tree_feed))]
    fn hash<H: Hasher>(&self, state: &mut H) {
        self.feed_own(state);
        self.child.hash(state);
    }
}
