// The first rows of a table by a key, beside a scan of it.
ghost use Rattle.std.specs.Prelude.{◌≡◌, true, false, IfOk};
ghost use Rattle.vx_laws_topk.specs.TopLaws.{has_no_slot};

use crate::opening::Opened;
use crate::scanning::{store_of, time_scan};
use crate::timing::{ROUNDS, print_since};
use anyhow::{Result, bail};
use std::alloc::Global;
use std::time::Instant;
use vx_dtype::{FieldName, Mem};
use vx_eval::DynamicExprUpdates;
use vx_expr::ExprRef;
use vx_scan::MemoryStore;
use vx_topk::{top_rows, unseen_slots_are_none};

/// How many rows are asked.
const COUNT: u32 = 10;

/// Times the scan of the table, and its first rows by the column `x`.
pub(crate) fn time(rt: &HostRuntime, opened: Opened) -> Result<()> {
    let Opened {
        request,
        filter,
        projection,
    } = opened;
    let mut store = store_of(rt.alloc(), request)?;
    time_store(rt, &filter, &projection, &mut store)
}

/// The same for a filter and a projection over a store.
fn time_store(
    rt: &HostRuntime,
    filter: &ExprRef,
    projection: &ExprRef,
    store: &mut MemoryStore,
) -> Result<()> {
    for _ in 0..ROUNDS {
        time_scan(rt, filter, projection, store)?;
        time_first(rt, filter, projection, store)?;
    }
    Ok(())
}

/// Times the first rows of a store.
fn time_first(
    rt: &HostRuntime,
    filter: &ExprRef,
    projection: &ExprRef,
    store: &mut MemoryStore,
) -> Result<()> {
    let start = Instant::now(rt)?;
    find_first(rt.alloc(), filter, projection, store)?;
    print_since(rt, "top", &start)
}

/// Finds the first rows of a store.
fn find_first(
    alloc: Global,
    filter: &ExprRef,
    projection: &ExprRef,
    store: &mut MemoryStore,
) -> Result<()> {
    if has_slot(alloc, filter)? {
        bail!("a filter with a slot");
    }
    if has_slot(alloc, projection)? {
        bail!("a projection with a slot");
    }
    let key = FieldName::new(alloc, "x")?;
    match top_rows(alloc, filter, projection, &key, false, COUNT, store) {
        Ok(_report) => Ok(()),
        Err(_) => bail!("no first rows"),
    }
}

/// Whether an expression compares with a slot.
fn has_slot(alloc: Global, expr: &ExprRef) -> Mem<bool>
    ensures { IfOk result (λ has. has ≡ false → has_no_slot expr.now ≡ true) }
{
    unseen_slots_are_none();
    Ok(DynamicExprUpdates::new(alloc, expr, &[])?.is_some())
}
