// The falsification of filters and of their negations: one loop over the `and`, `or` and `not` of the expression, however deep they stand.
ghost use Rattle.std.specs.Prelude.{◌≡◌, ◌+◌, ◌∷◌, ◌++◌, false, [], IfOk};
ghost use Rattle.vx_expr.specs.Nodes.{binary_left, binary_right, binary_tree};
ghost use Rattle.vx_passes.specs.Falsifying.{falsified, negation_falsified};
ghost use Rattle.vx_prune.specs.Finding.{Finds};
ghost use Rattle.vx_prune.specs.Steps.{Goes, ask, asked_comparison, filtered, further_steps, held, is_joined};
ghost use Rattle.vx_prune.specs.Steps.{second_task, stepped, task_of, task_steps, tasks_of};

use crate::catalogs::StatsCatalog;
use crate::comparisons::{comparison_falsified, has_none};
use crate::joins::joined_known;
use crate::lists::contains_falsified;
use crate::ranges::{inverse, range_falsified, range_negation_falsified, slot_falsified};
use std::alloc::{AllocError, Global};
use vx_build::and;
use vx_dtype::{CompareOperator, Mem, Stat};
use vx_expr::{BinaryExpr, Expr, ExprRef, Operator, VortexExpr};

/// What is left to find of a filter.
#[derive(Drop)]
enum Step<'a> {
    /// An expression is asked, or its negation.
    Ask(&'a ExprRef, bool),
    /// After the first operand: the second is asked, or its negation, and one of both is enough.
    SecondOfEither(&'a ExprRef, bool),
    /// After the first operand: where it is found, the second is asked, or its negation, and both are needed.
    SecondOfBoth(&'a ExprRef, bool),
    /// After the second operand: what was found of the first one is joined with it by `or`.
    JoinEither(Option<ExprRef>),
    /// After the second operand: the first one is joined with it by `and`.
    JoinBoth(ExprRef),
}

/// The falsification of a filter over a catalog.
pub(crate) fn falsified<C: StatsCatalog>(
    alloc: Global,
    expr: &ExprRef,
    catalog: &mut C,
) -> Mem<Option<ExprRef>>
    ensures { Finds C.answer C.asked (λ known. falsified known expr.now) catalog.old catalog.new result }
{
    let mut found: Option<ExprRef> = None;
    let mut left = Vec::new(alloc);
    left.push(Step::Ask(expr, false))?;
    while let Some(step) = left.pop() {
        found = take_step(alloc, step, found, &mut left, catalog)?;
    }
    Ok(found)
}

/// Takes a step after what was found last, and adds the steps that it leaves. Answers what was found, None where that is still left.
fn take_step<'a, C: StatsCatalog>(
    alloc: Global,
    step: Step<'a>,
    found: Option<ExprRef>,
    left: &mut Vec<Step<'a>>,
    catalog: &mut C,
) -> Mem<Option<ExprRef>>
    ensures { Goes C.answer C.asked (λ known. stepped known (task_of step.entry) (held found)) (task_steps (task_of step.entry))
        (tasks_of left.old.items) (tasks_of left.new.items) catalog.old catalog.new result }
{
    match step {
        Step::Ask(expr, negated) => ask(alloc, expr, negated, left, catalog),
        Step::SecondOfEither(expr, negated) => {
            add_steps(left, Step::Ask(expr, negated), Step::JoinEither(found))?;
            Ok(None)
        }
        Step::SecondOfBoth(expr, negated) => match found {
            Some(first) => {
                add_steps(left, Step::Ask(expr, negated), Step::JoinBoth(first))?;
                Ok(None)
            }
            None => Ok(None),
        },
        Step::JoinEither(first) => joined_known(alloc, Operator::Or, first, found),
        Step::JoinBoth(first) => match found {
            Some(second) => Ok(Some(and(alloc, first, second)?)),
            None => Ok(None),
        },
    }
}

/// Adds two steps, the one that is taken first and the one behind it.
fn add_steps<'a>(
    left: &mut Vec<Step<'a>>,
    first: Step<'a>,
    later: Step<'a>,
) -> Result<(), AllocError>
    ensures { IfOk result (λ _. tasks_of left.new.items ≡ tasks_of left.old.items ++ task_of later.entry ∷ task_of first.entry ∷ []) }
{
    left.push(later)?;
    left.push(first)?;
    Ok(())
}

/// Asks for an expression or its negation. The operands of an `and`, an `or` and a `not` are left to be asked.
#[tactic(auto, unfolding(vx_passes::specs::Falsifying::falsified))]
fn ask<'a, C: StatsCatalog>(
    alloc: Global,
    expr: &'a ExprRef,
    negated: bool,
    left: &mut Vec<Step<'a>>,
    catalog: &mut C,
) -> Mem<Option<ExprRef>>
    ensures { Goes C.answer C.asked (λ known. filtered negated known expr.now) (1 + further_steps expr.now)
        (tasks_of left.old.items) (tasks_of left.new.items) catalog.old catalog.new result }
{
    match expr.expr() {
        Expr::Binary(node) => ask_binary(alloc, node, negated, left, catalog),
        Expr::Not(node) => {
            left.push(Step::Ask(node.child(), !negated))?;
            Ok(None)
        }
        _ => ask_alone(alloc, expr, negated, catalog),
    }
}

/// Asks for two operands under an operator, or the negation of this. Those of an `and` and of an `or` are left to be asked.
#[tactic(auto, unfolding(vx_passes::specs::Falsifying::falsified))]
fn ask_binary<'a, C: StatsCatalog>(
    alloc: Global,
    node: &'a BinaryExpr,
    negated: bool,
    left: &mut Vec<Step<'a>>,
    catalog: &mut C,
) -> Mem<Option<ExprRef>>
    ensures { Goes C.answer C.asked (λ known. filtered negated known (binary_tree node.now)) (1 + further_steps (binary_tree node.now))
        (tasks_of left.old.items) (tasks_of left.new.items) catalog.old catalog.new result }
{
    match node.op() {
        Operator::And => {
            let second = second_step(node.rhs(), !negated, negated);
            add_steps(left, Step::Ask(node.lhs(), negated), second)?;
            Ok(None)
        }
        Operator::Or => {
            let second = second_step(node.rhs(), negated, negated);
            add_steps(left, Step::Ask(node.lhs(), negated), second)?;
            Ok(None)
        }
        other => match other.maybe_cmp_operator() {
            Some(operator) => {
                let operator = asked_operator(operator, negated);
                comparison_falsified(alloc, node.lhs(), node.rhs(), operator, catalog)
            }
            None => Ok(None),
        },
    }
}

/// The step that asks a second operand, or its negation, where one of both is enough or both are needed.
fn second_step(operand: &ExprRef, either: bool, negated: bool) -> Step<'_>
    ensures { task_of result ≡ second_task either negated operand.now }
{
    if either {
        Step::SecondOfEither(operand, negated)
    } else {
        Step::SecondOfBoth(operand, negated)
    }
}

/// The comparison itself, or that which is true where it is false.
fn asked_operator(operator: CompareOperator, negated: bool) -> CompareOperator
    ensures { result ≡ asked_comparison negated operator }
{
    if negated { inverse(operator) } else { operator }
}

/// The falsification of a node without operands that are asked, or of its negation.
fn ask_alone<C: StatsCatalog>(
    alloc: Global,
    expr: &ExprRef,
    negated: bool,
    catalog: &mut C,
) -> Mem<Option<ExprRef>>
    requires { is_joined expr.now ≡ false }
    ensures { Finds C.answer C.asked (λ known. filtered negated known expr.now) catalog.old catalog.new result }
{
    if negated {
        return alone_negation_falsified(alloc, expr, catalog);
    }
    alone_falsified(alloc, expr, catalog)
}

/// The falsification of a node without operands that are asked.
#[tactic(auto, unfolding(vx_passes::specs::Falsifying::falsified))]
fn alone_falsified<C: StatsCatalog>(
    alloc: Global,
    expr: &ExprRef,
    catalog: &mut C,
) -> Mem<Option<ExprRef>>
    requires { is_joined expr.now ≡ false }
    ensures { Finds C.answer C.asked (λ known. falsified known expr.now) catalog.old catalog.new result }
{
    match expr.expr() {
        Expr::Between(node) => {
            let (value, lower, upper) = (expr.child_at(0), expr.child_at(1), expr.child_at(2));
            range_falsified(alloc, value, lower, upper, node.options(), catalog)
        }
        Expr::IsNull(node) => has_none(alloc, node.child(), Stat::NullCount, catalog),
        Expr::ListContains(node) => contains_falsified(alloc, node.list(), node.value(), catalog),
        Expr::Dynamic(node) => slot_falsified(alloc, node, expr.child_at(0), catalog),
        Expr::Binary(_) | Expr::Not(_) => unreachable!(),
        _ => Ok(None),
    }
}

/// The falsification of the negation of a node without operands that are asked: only a range tells anything.
#[tactic(auto, unfolding(vx_passes::specs::Falsifying::falsified))]
fn alone_negation_falsified<C: StatsCatalog>(
    alloc: Global,
    expr: &ExprRef,
    catalog: &mut C,
) -> Mem<Option<ExprRef>>
    requires { is_joined expr.now ≡ false }
    ensures { Finds C.answer C.asked (λ known. negation_falsified known expr.now) catalog.old catalog.new result }
{
    match expr.expr() {
        Expr::Between(node) => {
            let (value, lower, upper) = (expr.child_at(0), expr.child_at(1), expr.child_at(2));
            range_negation_falsified(alloc, value, lower, upper, node.options(), catalog)
        }
        Expr::Binary(_) | Expr::Not(_) => unreachable!(),
        _ => Ok(None),
    }
}
