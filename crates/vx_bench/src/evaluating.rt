// Evaluation beside the column calls that it needs.
use crate::kernels::Constant::{Number, Text};
use crate::kernels::{added, both, compared, item, ranged};
use crate::opening::{Opened, fields};
use crate::timing::{ROUNDS, print_since};
use anyhow::{Result, bail};
use std::alloc::Global;
use std::time::Instant;
use vx_column::ColumnRef;
use vx_dtype::StrictComparison::{NonStrict, Strict};
use vx_dtype::{BetweenOptions, CompareOperator, FieldNames, Mem};
use vx_eval::{ExprEval, Scope};
use vx_expr::ExprRef;
use vx_request::ScanRequest;

/// Times the filter and the projection over the rows of the first block, whose columns are one of i64 and one of texts, and the column
/// calls of `(($.x + 1i64) > 10i64) and ($.y = "a")` and of `(10i64 <= $.x < 50i64)`.
pub(crate) fn time(rt: &HostRuntime, opened: &Opened) -> Result<()> {
    let scope = Scope::new(first_rows(rt.alloc(), &opened.request)?);
    for _ in 0..ROUNDS {
        time_round(rt, opened, &scope)?;
    }
    Ok(())
}

/// Times each call once. The column calls of the range come before it too, so that it finds its numbers in the processor's cache, as they do.
fn time_round(rt: &HostRuntime, opened: &Opened, scope: &Scope) -> Result<()> {
    time_evaluation(rt, "sum", &opened.filter, scope)?;
    time_sum(rt, scope.root())?;
    time_range(rt, scope.root())?;
    time_evaluation(rt, "range", &opened.projection, scope)?;
    time_range(rt, scope.root())?;
    time_item(rt, scope.root())
}

/// The rows of the first block.
fn first_rows(alloc: Global, request: &ScanRequest) -> Result<ColumnRef> {
    let Some([x, y]) = request.blocks.first().map(|block| block.as_slice()) else {
        bail!("not two columns")
    };
    let names = fields(request.zones.dtype())?.names().clone()?;
    rows(alloc, names, x, y)
}

/// The rows of two columns with these names.
fn rows(alloc: Global, names: FieldNames, x: &ColumnRef, y: &ColumnRef) -> Result<ColumnRef> {
    let columns = pair(alloc, x, y)?;
    match ColumnRef::struct_(alloc, names, columns, x.len(), None) {
        Ok(rows) => Ok(rows),
        Err(_) => bail!("no rows"),
    }
}

/// Two columns as a list.
fn pair(alloc: Global, x: &ColumnRef, y: &ColumnRef) -> Mem<Vec<ColumnRef>> {
    let x = x.clone()?;
    Ok(vec![in alloc; x, y.clone()?]?)
}

/// Times an expression over rows.
pub(crate) fn time_evaluation(
    rt: &HostRuntime,
    name: &str,
    expr: &ExprRef,
    scope: &Scope,
) -> Result<()> {
    let start = Instant::now(rt)?;
    let _column = expr.evaluate(rt.alloc(), scope)?;
    print_since(rt, name, &start)
}

/// Times the column calls of the first expression.
fn time_sum(rt: &HostRuntime, rows: &ColumnRef) -> Result<()> {
    let start = Instant::now(rt)?;
    let _column = sum(rt.alloc(), rows)?;
    print_since(rt, "sum_calls", &start)
}

/// `(($.x + 1i64) > 10i64) and ($.y = "a")`
fn sum(alloc: Global, rows: &ColumnRef) -> Result<ColumnRef> {
    let x = x_is_above(alloc, rows)?;
    both(alloc, &x, &y_is_a(alloc, rows)?)
}

/// `(($.x + 1i64) > 10i64)`
fn x_is_above(alloc: Global, rows: &ColumnRef) -> Result<ColumnRef> {
    let sums = next_x(alloc, rows)?;
    compared(alloc, &sums, CompareOperator::Gt, Number(10))
}

/// `($.x + 1i64)`
fn next_x(alloc: Global, rows: &ColumnRef) -> Result<ColumnRef> {
    let x = item(alloc, rows, "x")?;
    added(alloc, &x, Number(1))
}

/// `($.y = "a")`
fn y_is_a(alloc: Global, rows: &ColumnRef) -> Result<ColumnRef> {
    let y = item(alloc, rows, "y")?;
    compared(alloc, &y, CompareOperator::Eq, Text("a"))
}

/// Times the column calls of the second expression.
fn time_range(rt: &HostRuntime, rows: &ColumnRef) -> Result<()> {
    let start = Instant::now(rt)?;
    let _column = range(rt.alloc(), rows)?;
    print_since(rt, "range_calls", &start)
}

/// `(10i64 <= $.x < 50i64)`
fn range(alloc: Global, rows: &ColumnRef) -> Result<ColumnRef> {
    let options = BetweenOptions {
        lower_strict: NonStrict,
        upper_strict: Strict,
    };
    let x = item(alloc, rows, "x")?;
    ranged(alloc, &x, Number(10), Number(50), options)
}

/// Times the taking of a column out of the rows, once.
fn time_item(rt: &HostRuntime, rows: &ColumnRef) -> Result<()> {
    let start = Instant::now(rt)?;
    let _column = item(rt.alloc(), rows, "x")?;
    print_since(rt, "item", &start)
}
