// Rewriting of expressions.
use crate::opening::{Opened, fields};
use crate::timing::{ROUNDS, print_since};
use anyhow::Result;
use std::time::Instant;
use vx_dtype::DType;
use vx_expr::{DisplayAs, ExprRef};
use vx_partition::{annotate_scope_access, partition};
use vx_transform::simplify_typed;

/// Times the filter's simplifying and its split into parts, and prints how long the texts of the filter and of the simplified one are.
pub(crate) fn time(rt: &HostRuntime, opened: &Opened) -> Result<()> {
    print_length(rt, "given", &opened.filter)?;
    for _ in 0..ROUNDS {
        time_round(rt, &opened.filter, opened.request.zones.dtype())?;
    }
    Ok(())
}

/// Times each call once.
fn time_round(rt: &HostRuntime, filter: &ExprRef, scope: &DType) -> Result<()> {
    let simple = time_simplifying(rt, "simplify", filter.clone()?, scope)?;
    print_length(rt, "simplified", &simple)?;
    time_split(rt, simple, scope)
}

/// Times the simplifying of an expression over a scope of this type under a name, and answers the result.
pub(crate) fn time_simplifying(
    rt: &HostRuntime,
    name: &str,
    expr: ExprRef,
    scope: &DType,
) -> Result<ExprRef> {
    let start = Instant::now(rt)?;
    let simple = simplify_typed(rt.alloc(), expr, scope)?;
    print_since(rt, name, &start)?;
    Ok(simple)
}

/// Times the split of an expression by the columns that it touches.
pub(crate) fn time_split(rt: &HostRuntime, expr: ExprRef, scope: &DType) -> Result<()> {
    let access = annotate_scope_access(fields(scope)?);
    let start = Instant::now(rt)?;
    let _split = partition(rt.alloc(), expr, scope, &access)?;
    print_since(rt, "partition", &start)
}

/// Prints the length of an expression's text under a name.
fn print_length(rt: &HostRuntime, name: &str, expr: &ExprRef) -> Result<()> {
    let text = expr.compact(rt.alloc())?;
    println!(rt; "{name} {}", text.len())?;
    Ok(())
}
