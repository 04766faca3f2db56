// The children of a node: how many, which, and the node with others in their place.
ghost use Rattle.std.specs.Prelude.{◌≡◌, ◌<◌, length, map, Some, IfOk};
ghost use Rattle.std.specs.List.{slice_get};
ghost use Rattle.vx_expr.specs.Trees.{children_of};
ghost use Rattle.vx_expr.specs.Nodes.{node_tree};
ghost use Rattle.vx_expr.specs.Children.{one_of, two_of, three_of, with_children_of, id_of};
ghost use Rattle.vx_expr.specs.Answers.{AnswersBy};
ghost use Rattle.vx_expr.specs.declared.errors.ExprError.TheVariants.{WrongChildren};

use crate::errors::ExprError;
use crate::expressions::{Expr, ExprRef};
use std::alloc::Global;
use vx_dtype::Mem;

/// The name of a kind of expressions.
pub type ExprId = &'static str;

/// The only child, and None where there are more or fewer.
pub fn one_child(mut children: Vec<ExprRef>) -> Option<ExprRef>
    ensures { result ≡ one_of children.items }
{
    let first = children.pop()?;
    if children.is_empty() {
        Some(first)
    } else {
        None
    }
}

/// The two children in order, and None where there are more or fewer.
pub fn two_children(mut children: Vec<ExprRef>) -> Option<(ExprRef, ExprRef)>
    ensures { result ≡ two_of children.items }
{
    let second = children.pop()?;
    let first = one_child(children)?;
    Some((first, second))
}

/// The three children in order, and None where there are more or fewer.
pub fn three_children(mut children: Vec<ExprRef>) -> Option<(ExprRef, ExprRef, ExprRef)>
    ensures { result ≡ three_of children.items }
{
    let third = children.pop()?;
    let (first, second) = two_children(children)?;
    Some((first, second, third))
}

/// The child at this place of a list, counted from 0.
pub(crate) fn child_in(children: &[ExprRef], i: usize) -> &ExprRef
    requires { i < length children.now }
    ensures { slice_get children.now i ≡ Some result.now }
{
    &children[i]
}

impl Expr {
    /// The name of the kind.
    pub(crate) fn id(&self) -> ExprId
        ensures { result.now ≡ id_of (node_tree self.now) }
    {
        match self {
            Expr::Between(_) => "between",
            Expr::Binary(_) => "binary",
            Expr::Cast(_) => "cast",
            Expr::Dynamic(_) => "dynamic",
            Expr::GetItem(_) => "get_item",
            Expr::IsNull(_) => "is_null",
            Expr::Like(_) => "like",
            Expr::ListContains(_) => "list_contains",
            Expr::Literal(_) => "literal",
            Expr::Merge(_) => "merge",
            Expr::Not(_) => "not",
            Expr::Pack(_) => "pack",
            Expr::Root(_) => "root",
            Expr::Select(_) => "select",
        }
    }

    /// How many children there are.
    #[tactic(auto, using(crate::proofs::TreeLemmas::listed_trees_of))]
    pub(crate) fn children_count(&self) -> usize
        ensures { result ≡ length (children_of (node_tree self.now)) }
    {
        match self {
            Expr::Literal(_) | Expr::Root(_) => 0,
            Expr::Cast(_) | Expr::Dynamic(_) | Expr::GetItem(_) | Expr::IsNull(_) => 1,
            Expr::Not(_) | Expr::Select(_) => 1,
            Expr::Binary(_) | Expr::Like(_) | Expr::ListContains(_) => 2,
            Expr::Between(_) => 3,
            Expr::Merge(node) => node.values().len(),
            Expr::Pack(node) => node.values().len(),
        }
    }

    /// The child at this place, counted from 0.
    #[tactic(auto, using(crate::proofs::TreeLemmas::listed_trees_of))]
    pub(crate) fn child_at(&self, i: usize) -> &ExprRef
        requires { i < length (children_of (node_tree self.now)) }
        ensures { slice_get (children_of (node_tree self.now)) i ≡ Some result.now }
    {
        match self {
            Expr::Between(node) => node.child_at(i),
            Expr::Binary(node) => node.child_at(i),
            Expr::Cast(node) => node.child(),
            Expr::Dynamic(node) => node.lhs(),
            Expr::GetItem(node) => node.child(),
            Expr::IsNull(node) => node.child(),
            Expr::Like(node) => node.child_at(i),
            Expr::ListContains(node) => node.child_at(i),
            Expr::Merge(node) => node.child_at(i),
            Expr::Not(node) => node.child(),
            Expr::Pack(node) => node.child_at(i),
            Expr::Select(node) => node.child(),
            Expr::Literal(_) | Expr::Root(_) => unreachable!(),
        }
    }

    /// The children in order.
    pub(crate) fn child_list(&self, alloc: Global) -> Mem<Vec<&ExprRef>>
        ensures { IfOk result (λ list. map (λ e. e.now) list.items ≡ children_of (node_tree self.now)) }
    {
        match self {
            Expr::Between(node) => node.child_list(alloc),
            Expr::Binary(node) => node.child_list(alloc),
            Expr::Cast(node) => node.child_list(alloc),
            Expr::Dynamic(node) => node.child_list(alloc),
            Expr::GetItem(node) => node.child_list(alloc),
            Expr::IsNull(node) => node.child_list(alloc),
            Expr::Like(node) => node.child_list(alloc),
            Expr::ListContains(node) => node.child_list(alloc),
            Expr::Literal(node) => node.child_list(alloc),
            Expr::Merge(node) => node.child_list(alloc),
            Expr::Not(node) => node.child_list(alloc),
            Expr::Pack(node) => node.child_list(alloc),
            Expr::Root(node) => node.child_list(alloc),
            Expr::Select(node) => node.child_list(alloc),
        }
    }

    /// The node with these children in place of its own.
    pub(crate) fn with_children(&self, children: Vec<ExprRef>) -> Result<Expr, ExprError>
        ensures { AnswersBy node_tree WrongChildren (with_children_of (node_tree self.now) children.items) result }
    {
        Ok(match self {
            Expr::Between(node) => Expr::Between(node.with_children(children)?),
            Expr::Binary(node) => Expr::Binary(node.with_children(children)?),
            Expr::Cast(node) => Expr::Cast(node.with_children(children)?),
            Expr::Dynamic(node) => Expr::Dynamic(node.with_children(children)?),
            Expr::GetItem(node) => Expr::GetItem(node.with_children(children)?),
            Expr::IsNull(node) => Expr::IsNull(node.with_children(children)?),
            Expr::Like(node) => Expr::Like(node.with_children(children)?),
            Expr::ListContains(node) => Expr::ListContains(node.with_children(children)?),
            Expr::Literal(node) => Expr::Literal(node.with_children(children)?),
            Expr::Merge(node) => Expr::Merge(node.with_children(children)?),
            Expr::Not(node) => Expr::Not(node.with_children(children)?),
            Expr::Pack(node) => Expr::Pack(node.with_children(children)?),
            Expr::Root(node) => Expr::Root(node.with_children(children)?),
            Expr::Select(node) => Expr::Select(node.with_children(children)?),
        })
    }
}
