// Chains of `and`, as deep as is asked: that each call over them returns on a small stack, and how long it takes.
use crate::evaluating::time_evaluation;
use crate::rewriting::{time_simplifying, time_split};
use crate::timing::print_since;
use anyhow::{Result, bail};
use std::alloc::Global;
use std::collections::HashSet;
use std::time::Instant;
use vx_build::{and, conjuncts, lit};
use vx_dtype::{DType, FieldPathSet, Mem, NoMemory};
use vx_eval::{ExprEval, Scope};
use vx_expr::ExprRef;
use vx_prune::checked_pruning_expr;
use vx_text::write_query;
use vx_transform::simplify;
use vx_traversal::{NodeExt, ReferenceCollector, Transformed, Walk};

/// Prints each call over a chain of `true`, with its nanoseconds: `left 1000000` is one of a million links to the left.
pub(crate) fn run(rt: &HostRuntime, shape: &str) -> Result<()> {
    let mut words = shape.split_whitespace();
    match (words.next(), words.next()) {
        (Some(side), Some(links)) => time(rt, side == "left", links.parse::<u64>()?),
        _ => bail!("usage: vx_bench deep 'left|right LINKS'"),
    }
}

/// Prints each call over a chain of so many links to the left or to the right.
fn time(rt: &HostRuntime, to_left: bool, links: u64) -> Result<()> {
    let expr = chain(rt.alloc(), to_left, links)?;
    print_calls(rt, &expr)?;
    print_sameness(rt, &expr, chain(rt.alloc(), to_left, links)?)?;
    time_drop(rt, expr)
}

/// So many links of `true` joined by `and`, to the left or to the right.
fn chain(alloc: Global, to_left: bool, links: u64) -> Mem<ExprRef> {
    let operand = lit(alloc, true)?;
    let mut chain = operand.clone()?;
    for _ in 0..links {
        let next = operand.clone()?;
        chain = linked(alloc, to_left, chain, next)?;
    }
    Ok(chain)
}

/// A chain with one link more.
fn linked(alloc: Global, to_left: bool, chain: ExprRef, next: ExprRef) -> Mem<ExprRef> {
    if to_left {
        and(alloc, chain, next)
    } else {
        and(alloc, next, chain)
    }
}

/// The calls over one chain, over rows without fields.
fn print_calls(rt: &HostRuntime, expr: &ExprRef) -> Result<()> {
    let scope = Scope::empty(rt.alloc(), 1)?;
    print_meaning(rt, expr, &scope)?;
    print_passes(rt, expr, scope.root().dtype())?;
    print_walks(rt, expr)?;
    print_texts(rt, expr)
}

/// Types and values.
fn print_meaning(rt: &HostRuntime, expr: &ExprRef, scope: &Scope) -> Result<()> {
    time_strict_typing(rt, expr, scope.root().dtype())?;
    time_loose_typing(rt, expr, scope.root().dtype())?;
    time_evaluation(rt, "evaluate", expr, scope)
}

/// Times the strict typing of an expression.
fn time_strict_typing(rt: &HostRuntime, expr: &ExprRef, scope: &DType) -> Result<()> {
    let start = Instant::now(rt)?;
    let _dtype = expr.typed(rt.alloc(), scope)?;
    print_since(rt, "typed", &start)
}

/// Times the looser typing of an expression.
fn time_loose_typing(rt: &HostRuntime, expr: &ExprRef, scope: &DType) -> Result<()> {
    let start = Instant::now(rt)?;
    let _dtype = expr.return_dtype(rt.alloc(), scope)?;
    print_since(rt, "return_dtype", &start)
}

/// What rewriting makes.
fn print_passes(rt: &HostRuntime, expr: &ExprRef, scope: &DType) -> Result<()> {
    time_conjuncts(rt, expr)?;
    time_simplify(rt, expr.clone()?)?;
    drop(time_simplifying(rt, "simplify_typed", expr.clone()?, scope)?);
    time_split(rt, expr.clone()?, scope)?;
    time_pruning(rt, expr)
}

/// Times the list of an expression's conjuncts.
fn time_conjuncts(rt: &HostRuntime, expr: &ExprRef) -> Result<()> {
    let start = Instant::now(rt)?;
    let _conjuncts = conjuncts(rt.alloc(), expr)?;
    print_since(rt, "conjuncts", &start)
}

/// Times the simplifying of an expression, whatever its scope.
fn time_simplify(rt: &HostRuntime, expr: ExprRef) -> Result<()> {
    let start = Instant::now(rt)?;
    let _simple = simplify(rt.alloc(), expr)?;
    print_since(rt, "simplify", &start)
}

/// Times the making of a pruning expression where no statistics are available.
fn time_pruning(rt: &HostRuntime, expr: &ExprRef) -> Result<()> {
    let start = Instant::now(rt)?;
    let _pruning = checked_pruning_expr(rt.alloc(), expr, &FieldPathSet::new(rt.alloc()))?;
    print_since(rt, "checked_pruning_expr", &start)
}

/// Walks down and up.
fn print_walks(rt: &HostRuntime, expr: &ExprRef) -> Result<()> {
    time_visit(rt, expr)?;
    time_transforming(rt, expr.clone()?)
}

/// Times a visit of all nodes.
fn time_visit(rt: &HostRuntime, expr: &ExprRef) -> Result<()> {
    let start = Instant::now(rt)?;
    let mut collector = ReferenceCollector::new(rt.alloc());
    let _order = expr.accept(&mut collector)?;
    print_since(rt, "accept", &start)
}

/// Times a rewrite that leaves each node.
fn time_transforming(rt: &HostRuntime, expr: ExprRef) -> Result<()> {
    let start = Instant::now(rt)?;
    match unchanged(rt.alloc(), expr) {
        Ok(_same) => print_since(rt, "transform_up", &start),
        Err(_) => bail!("no walk"),
    }
}

/// The expression, each node of which stays.
fn unchanged(alloc: Global, expr: ExprRef) -> Walk<Transformed<ExprRef>, NoMemory> {
    expr.transform_up(
        alloc,
        |node: ExprRef| -> Walk<Transformed<ExprRef>, NoMemory> { Ok(Transformed::no(node)) },
    )
}

/// Texts.
fn print_texts(rt: &HostRuntime, expr: &ExprRef) -> Result<()> {
    time_text(rt, expr)?;
    time_query(rt, expr)
}

/// Times the compact text of an expression.
fn time_text(rt: &HostRuntime, expr: &ExprRef) -> Result<()> {
    let start = Instant::now(rt)?;
    let _text = expr.compact(rt.alloc())?;
    print_since(rt, "compact", &start)
}

/// Times the query of an expression.
fn time_query(rt: &HostRuntime, expr: &ExprRef) -> Result<()> {
    let start = Instant::now(rt)?;
    let _query = write_query(rt.alloc(), expr)?;
    print_since(rt, "write_query", &start)
}

/// Equality and hashes.
fn print_sameness(rt: &HostRuntime, expr: &ExprRef, equal: ExprRef) -> Result<()> {
    time_equality(rt, expr, &equal)?;
    time_hash(rt, equal)
}

/// Times the comparison of an expression with an equal one.
fn time_equality(rt: &HostRuntime, expr: &ExprRef, equal: &ExprRef) -> Result<()> {
    let start = Instant::now(rt)?;
    if *expr != *equal {
        bail!("unequal");
    }
    print_since(rt, "eq", &start)
}

/// Times the making of a set of an expression alone.
fn time_hash(rt: &HostRuntime, expr: ExprRef) -> Result<()> {
    let start = Instant::now(rt)?;
    let mut set = HashSet::new(rt.alloc());
    set.insert(expr)?;
    print_since(rt, "hash", &start)
}

/// Times the dropping of an expression.
fn time_drop(rt: &HostRuntime, expr: ExprRef) -> Result<()> {
    let start = Instant::now(rt)?;
    drop(expr);
    print_since(rt, "drop", &start)
}
