// A scan beside the column calls that it needs.
use crate::kernels::Constant::Number;
use crate::kernels::{compared, kept};
use crate::opening::Opened;
use crate::timing::{ROUNDS, print_since};
use anyhow::{Result, bail};
use std::alloc::Global;
use std::time::Instant;
use vx_column::ColumnRef;
use vx_dtype::{CompareOperator, Mem, ScalarValue};
use vx_expr::ExprRef;
use vx_request::ScanRequest;
use vx_scan::{MemoryStore, scan_exprs};

/// Times the scan of the table, whose first column is one of i64, and the column calls of `$.x` where `($.x > 10i64)` over it.
pub(crate) fn time(rt: &HostRuntime, opened: Opened) -> Result<()> {
    let Opened {
        request,
        filter,
        projection,
    } = opened;
    time_request(rt, &filter, &projection, request)
}

/// The same for a filter and a projection over the table of a request.
fn time_request(
    rt: &HostRuntime,
    filter: &ExprRef,
    projection: &ExprRef,
    request: ScanRequest,
) -> Result<()> {
    let columns = first_columns(rt.alloc(), request.blocks.as_slice())?;
    let mut store = store_of(rt.alloc(), request)?;
    time_store(rt, filter, projection, &mut store, columns.as_slice())
}

/// The same for a store, and the first column of each of its blocks.
fn time_store(
    rt: &HostRuntime,
    filter: &ExprRef,
    projection: &ExprRef,
    store: &mut MemoryStore,
    columns: &[ColumnRef],
) -> Result<()> {
    for _ in 0..ROUNDS {
        time_scan(rt, filter, projection, store)?;
        time_calls(rt, columns)?;
    }
    Ok(())
}

/// The table of a request.
pub(crate) fn store_of(alloc: Global, request: ScanRequest) -> Result<MemoryStore> {
    let ScanRequest { zones, blocks, .. } = request;
    match MemoryStore::try_new(alloc, zones, blocks, Vec::new(alloc)) {
        Ok(store) => Ok(store),
        Err(_) => bail!("no table"),
    }
}

/// The first column of each block.
fn first_columns(alloc: Global, blocks: &[Vec<ColumnRef>]) -> Mem<Vec<ColumnRef>> {
    let mut columns = Vec::new(alloc);
    for block in blocks {
        if let Some(column) = block.first() {
            columns.push(column.clone()?)?;
        }
    }
    Ok(columns)
}

/// Times a scan of a store.
pub(crate) fn time_scan(
    rt: &HostRuntime,
    filter: &ExprRef,
    projection: &ExprRef,
    store: &mut MemoryStore,
) -> Result<()> {
    let start = Instant::now(rt)?;
    match scan_exprs(rt.alloc(), filter, projection, &[], store) {
        Ok(_report) => print_since(rt, "scan", &start),
        Err(_) => bail!("no report"),
    }
}

/// Times the column calls: of each column its numbers above 10, which are put into one list.
fn time_calls(rt: &HostRuntime, columns: &[ColumnRef]) -> Result<()> {
    let start = Instant::now(rt)?;
    let mut rows = Vec::new(rt.alloc());
    for column in columns {
        append_above_ten(rt.alloc(), column, &mut rows)?;
    }
    print_since(rt, "scan_calls", &start)
}

/// Puts the numbers of a column that are above 10 behind a list.
fn append_above_ten(alloc: Global, column: &ColumnRef, rows: &mut Vec<ScalarValue>) -> Result<()> {
    Ok(above_ten(alloc, column)?.append_to(alloc, rows)?)
}

/// The numbers of a column that are above 10.
fn above_ten(alloc: Global, column: &ColumnRef) -> Result<ColumnRef> {
    let above = compared(alloc, column, CompareOperator::Gt, Number(10))?;
    kept(alloc, column, &above)
}
