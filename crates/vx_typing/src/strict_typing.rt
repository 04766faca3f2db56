// Strict typing: one loop over the nodes of the expression, from the leaves up.
ghost use Rattle.std.specs.Prelude.{◌≡◌, length};
ghost use Rattle.vx_dtype.specs.TypeViews.{type_view};
ghost use Rattle.vx_expr.specs.Trees.{children_of};
ghost use Rattle.vx_expr.specs.Nodes.{node_tree};
ghost use Rattle.vx_semantics.specs.Typing.{typed_of};
ghost use Rattle.vx_typing.specs.OperandTypes.{AreTyped};
ghost use Rattle.vx_typing.specs.TypingAnswers.{AnswersType};

use crate::errors::TypeError;
use crate::merges::merge_type;
use crate::rules::{
    between_type, binary_type, cast_type, contains_type, dynamic_type, item_type, like_type,
    literal_type, not_type, pack_type,
};
use crate::scopes::CheckedScope;
use crate::selections::select_type;
use std::alloc::Global;
use vx_dtype::{DType, Nullability};
use vx_expr::{Expr, ExprRef, VortexExpr};

/// The type of an expression over a scope of this type, or the refusal of its first node in post-order that has none.
pub fn typed(alloc: Global, expr: &ExprRef, scope: &DType) -> Result<DType, TypeError>
    ensures { AnswersType (typed_of (type_view scope.now) expr.now) result }
{
    let scope = CheckedScope::new(scope);
    typed_over(alloc, expr, &scope)
}

/// The type of an expression over a scope whose names were looked at.
fn typed_over(alloc: Global, expr: &ExprRef, scope: &CheckedScope<'_>) -> Result<DType, TypeError>
    ensures { AnswersType (typed_of scope.now expr.now) result }
{
    let nodes = expr.post_order(alloc)?;
    let mut types = Vec::new(alloc);
    for &node in nodes.as_slice() {
        let operands = types.split_off(types.len() - node.children_count())?;
        let dtype = node_type(alloc, node.expr(), operands, scope)?;
        types.push(dtype)?;
    }
    match types.pop() {
        Some(dtype) => Ok(dtype),
        None => unreachable!(),
    }
}

/// The type of a node over those of its operands.
#[tactic(auto, unfolding(vx_semantics::specs::Typing::typed_of))]
fn node_type(
    alloc: Global,
    node: &Expr,
    operands: Vec<DType>,
    scope: &CheckedScope<'_>,
) -> Result<DType, TypeError>
    requires lengths { length operands.items ≡ length (children_of (node_tree node.now)) }
    requires operands { AreTyped scope.now (children_of (node_tree node.now)) operands.items }
    ensures { AnswersType (typed_of scope.now (node_tree node.now)) result }
{
    match node {
        Expr::Root(_) => scope.row_type(),
        Expr::Literal(node) => literal_type(node.value()),
        Expr::GetItem(node) => item_type(node.field(), &operands[0]),
        Expr::Binary(node) => binary_type(node.op(), &operands[0], &operands[1]),
        Expr::Not(_) => not_type(&operands[0]),
        Expr::IsNull(_) => Ok(DType::Bool(Nullability::NonNullable)),
        Expr::Like(_) => like_type(&operands[0], &operands[1]),
        Expr::Between(_) => between_type(&operands[0], &operands[1], &operands[2]),
        Expr::Cast(node) => cast_type(node.target(), &operands[0]),
        Expr::ListContains(_) => contains_type(&operands[0], &operands[1]),
        Expr::Pack(node) => pack_type(alloc, node.names(), node.nullability(), operands),
        Expr::Merge(node) => merge_type(alloc, node.nullability(), operands.as_slice()),
        Expr::Select(node) => select_type(alloc, node.selection(), &operands[0]),
        Expr::Dynamic(node) => dynamic_type(node.rhs_dtype(), &operands[0]),
    }
}
