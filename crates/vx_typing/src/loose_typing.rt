// The looser typing: one loop over the nodes of the expression, from the leaves up.
ghost use Rattle.std.specs.Prelude.{◌≡◌, length, List};
ghost use Rattle.vx_dtype.specs.Types.{Ty};
ghost use Rattle.vx_dtype.specs.TypeViews.{type_view};
ghost use Rattle.vx_expr.specs.Trees.{Tree, children_of};
ghost use Rattle.vx_expr.specs.Nodes.{node_tree};
ghost use Rattle.vx_semantics.specs.LooseTyping.{loosely_typed};
ghost use Rattle.vx_typing.specs.OperandTypes.{AreLooselyAnswered, AreLooselyTyped, TypesOrRefuses, asked_operands};
ghost use Rattle.vx_typing.specs.TypingAnswers.{AnswersType};

use crate::errors::TypeError;
use crate::kinds::union_of;
use crate::loose_rules::{
    loose_between_type, loose_binary_type, loose_dynamic_type, loose_pack_type,
};
use crate::merges::merge_type;
use crate::rules::{item_type, not_type};
use crate::selections::loose_select_type;
use std::alloc::Global;
use vx_dtype::{DType, Nullability};
use vx_expr::{Expr, ExprRef, VortexExpr};

/// The type of an expression over a scope of this type by rules that ask less than those of [`typed`](crate::typed): the struct of
/// selected fields is nullable where its struct is, a null test and a cast don't look at their operands, comparisons, `and`, `or`,
/// LIKE and membership ask nothing of types, ranges and comparisons with a slot take lists and structs too, and no name is
/// refused because it stands twice. Never refuses with NullableSelect or DuplicateField.
pub fn return_dtype(alloc: Global, expr: &ExprRef, scope: &DType) -> Result<DType, TypeError>
    ensures { AnswersType (loosely_typed (type_view scope.now) expr.now) result }
{
    let nodes = expr.post_order(alloc)?;
    let mut answers = Vec::new(alloc);
    for &node in nodes.as_slice() {
        let operands = answers.split_off(answers.len() - node.children_count())?;
        let answer = node_answer(alloc, node.expr(), operands.as_slice(), scope);
        if matches!(answer, Err(TypeError::NoMemory)) {
            return Err(TypeError::NoMemory);
        }
        answers.push(answer)?;
    }
    match answers.pop() {
        Some(answer) => answer,
        None => unreachable!(),
    }
}

/// The type of a node by what its children answer, each its type or its refusal.
fn node_answer(
    alloc: Global,
    node: &Expr,
    answers: &[Result<DType, TypeError>],
    scope: &DType,
) -> Result<DType, TypeError>
    requires { AreLooselyAnswered (type_view scope.now) (children_of (node_tree node.now)) answers.now }
    ensures { AnswersType (loosely_typed (type_view scope.now) (node_tree node.now)) result }
{
    let operands = asked_types(alloc, node, answers)?;
    loose_node_type(alloc, node, operands, scope)
}

/// The types of the operands that a node looks at, or the first refusal among them.
fn asked_types(
    alloc: Global,
    node: &Expr,
    answers: &[Result<DType, TypeError>],
) -> Result<Vec<DType>, TypeError>
    ensures { (t : Ty) → AreLooselyAnswered t (children_of (node_tree node.now)) answers.now → TypesOrRefuses t (asked_operands (node_tree node.now)) result }
{
    match node {
        Expr::IsNull(_) | Expr::Cast(_) => Ok(Vec::new(alloc)),
        _ => types_of(alloc, answers),
    }
}

/// The types that these answers are, or the first refusal among them.
fn types_of(alloc: Global, answers: &[Result<DType, TypeError>]) -> Result<Vec<DType>, TypeError>
    ensures { (t : Ty) (es : List Tree) → AreLooselyAnswered t es answers.now → TypesOrRefuses t es result }
{
    let mut types = Vec::new(alloc);
    for answer in answers {
        match answer {
            Ok(dtype) => types.push(dtype.clone()?)?,
            Err(refusal) => return Err(refusal.again()),
        }
    }
    Ok(types)
}

/// The type of a node over those of the operands that it looks at.
#[tactic(auto, unfolding(vx_semantics::specs::LooseTyping::loosely_typed))]
fn loose_node_type(
    alloc: Global,
    node: &Expr,
    operands: Vec<DType>,
    scope: &DType,
) -> Result<DType, TypeError>
    requires lengths { length operands.items ≡ length (asked_operands (node_tree node.now)) }
    requires operands { AreLooselyTyped (type_view scope.now) (asked_operands (node_tree node.now)) operands.items }
    ensures { AnswersType (loosely_typed (type_view scope.now) (node_tree node.now)) result }
{
    match node {
        Expr::Root(_) => Ok(scope.clone()?),
        Expr::Literal(node) => Ok(node.value().dtype().clone()?),
        Expr::GetItem(node) => item_type(node.field(), &operands[0]),
        Expr::Binary(node) => loose_binary_type(node.op(), &operands[0], &operands[1]),
        Expr::Not(_) => not_type(&operands[0]),
        Expr::IsNull(_) => Ok(DType::Bool(Nullability::NonNullable)),
        Expr::Like(_) => Ok(DType::Bool(union_of(&operands[0], &operands[1]))),
        Expr::Between(_) => loose_between_type(&operands[0], &operands[1], &operands[2]),
        Expr::Cast(node) => Ok(node.target().clone()?),
        Expr::ListContains(_) => Ok(DType::Bool(union_of(&operands[0], &operands[1]))),
        Expr::Pack(node) => loose_pack_type(alloc, node.names(), node.nullability(), operands),
        Expr::Merge(node) => merge_type(alloc, node.nullability(), operands.as_slice()),
        Expr::Select(node) => loose_select_type(alloc, node.selection(), &operands[0]),
        Expr::Dynamic(node) => loose_dynamic_type(node.rhs_dtype(), &operands[0]),
    }
}
