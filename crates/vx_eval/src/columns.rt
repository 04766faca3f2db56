// The column of an expression: one loop over its nodes, from the leaves up.
ghost use Rattle.std.specs.Prelude.{◌≡◌, List, length};
ghost use Rattle.vx_dtype.specs.Types.{Ty};
ghost use Rattle.vx_dtype.specs.Values.{Val};
ghost use Rattle.vx_expr.specs.Trees.{Tree, binary, children_of, trees_of};
ghost use Rattle.vx_expr.specs.Nodes.{node_tree};
ghost use Rattle.vx_semantics.specs.Meaning.{Slots};
ghost use Rattle.vx_eval.specs.Scopes.{scope_rows, scope_slots};
ghost use Rattle.vx_eval.specs.Meant.{IsMeant, AreMeant};
ghost use Rattle.vx_eval.specs.Steps.{NodeGives, Computes};

use crate::breaking_rules::{add_columns, cast_column, subtract_columns};
use crate::column_merges::merge_column;
use crate::column_packs::pack_column;
use crate::column_rules::{
    and_columns, between_columns, compare_columns, contains_columns, is_null_column, item_column,
    like_columns, literal_column, not_column, or_columns, root_column,
};
use crate::column_selections::select_column;
use crate::dynamics::dynamic_column;
use crate::errors::Failure;
use crate::scopes::Scope;
use std::alloc::Global;
use vx_column::ColumnRef;
use vx_expr::{Expr, ExprRef, Operator, VortexExpr};

/// The column of an expression over the rows of a scope.
pub(crate) fn column_of(alloc: Global, expr: &ExprRef, scope: &Scope) -> Result<ColumnRef, Failure>
    ensures { Computes (scope_rows scope.now).ty (scope_slots scope.now) (scope_rows scope.now).rows expr.now result }
{
    let nodes = expr.post_order(alloc)?;
    let mut columns = Vec::new(alloc);
    for &node in nodes.as_slice() {
        let operands = columns.split_off(columns.len() - node.children_count())?;
        let column = node_column(alloc, node.expr(), operands, scope)?;
        columns.push(column)?;
    }
    match columns.pop() {
        Some(column) => Ok(column),
        None => unreachable!(),
    }
}

/// The column of a node over those of its operands.
fn node_column(
    alloc: Global,
    node: &Expr,
    operands: Vec<ColumnRef>,
    scope: &Scope,
) -> Result<ColumnRef, Failure>
    requires lengths { length operands.items ≡ length (children_of (node_tree node.now)) }
    requires operands { AreMeant (scope_rows scope.now).ty (scope_slots scope.now) (scope_rows scope.now).rows
        (trees_of (children_of (node_tree node.now))) operands.items }
    ensures { NodeGives (scope_rows scope.now).ty (scope_slots scope.now) (scope_rows scope.now).rows (node_tree node.now) result }
{
    match node {
        Expr::Root(_) => root_column(scope.root()),
        Expr::Literal(node) => literal_column(alloc, node.value(), scope.len()),
        Expr::GetItem(node) => item_column(alloc, node.field(), &operands[0]),
        Expr::Binary(node) => binary_column(alloc, node.op(), &operands[0], &operands[1]),
        Expr::Not(_) => not_column(alloc, &operands[0]),
        Expr::IsNull(_) => is_null_column(alloc, &operands[0]),
        Expr::Like(node) => {
            let (negated, folds_case) = (node.negated(), node.case_insensitive());
            like_columns(alloc, &operands[0], &operands[1], negated, folds_case)
        }
        Expr::Between(node) => {
            let options = node.options();
            between_columns(alloc, &operands[0], &operands[1], &operands[2], options)
        }
        Expr::Cast(node) => cast_column(alloc, &operands[0], node.target()),
        Expr::ListContains(_) => contains_columns(alloc, &operands[0], &operands[1]),
        Expr::Pack(node) => {
            pack_column(
                alloc,
                node.names(),
                node.nullability(),
                operands,
                scope.len(),
            )
        }
        Expr::Merge(node) => merge_column(alloc, node.nullability(), operands, scope.len()),
        Expr::Select(node) => select_column(alloc, node.selection(), &operands[0]),
        Expr::Dynamic(node) => dynamic_column(alloc, node, &operands[0], scope.slots()),
    }
}

/// The column of two operands under an operator.
fn binary_column(
    alloc: Global,
    op: Operator,
    left: &ColumnRef,
    right: &ColumnRef,
) -> Result<ColumnRef, Failure>
    requires { length left.now.rows ≡ length right.now.rows }
    ensures { (t : Ty) (slots : Slots) (rows : List Val) (d e : Tree) → IsMeant t slots rows d left.now → IsMeant t slots rows e right.now →
        NodeGives t slots rows (binary d op e) result }
{
    match op {
        Operator::And => and_columns(alloc, left, right),
        Operator::Or => or_columns(alloc, left, right),
        Operator::Add => add_columns(alloc, left, right),
        Operator::Sub => subtract_columns(alloc, left, right),
        _ => match op.maybe_cmp_operator() {
            Some(comparison) => compare_columns(alloc, comparison, left, right),
            None => unreachable!(),
        },
    }
}
