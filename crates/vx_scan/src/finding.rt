// What a scan finds, a block at a time, and the report of it.
ghost use Rattle.std.specs.Prelude.{◌≡◌, ◌<◌, [], true, length, map, IfOk};
ghost use Rattle.vx_dtype.specs.RawViews.{raw_view};
ghost use Rattle.vx_dtype.specs.TypeViews.{type_view};
ghost use Rattle.vx_column.specs.Columns.{values_fit};
ghost use Rattle.vx_expr.specs.Trees.{Tree};
ghost use Rattle.vx_scan.specs.Stores.{IsSameStore};
ghost use Rattle.vx_scan.specs.Opening.{IsPreparedScan};
ghost use Rattle.vx_scan.specs.Steps.{TakesTurn, found_view};

use crate::errors::ScanError;
use crate::preparing::PreparedScan;
use crate::reports::{BlockNumbers, RowValues, ScanReport};
use crate::stores::ColumnStore;
use std::alloc::Global;
use vx_dtype::{Mem, Scalar, ScalarValue};

/// What a scan has found so far: the rows, and the blocks that it kept and skipped.
#[derive(Drop)]
pub(crate) struct Found {
    pub(crate) rows: Vec<ScalarValue>,
    pub(crate) kept: Vec<u32>,
    pub(crate) skipped: Vec<u32>,
}

impl Found {
    /// Nothing, before the first block.
    pub(crate) fn nothing(alloc: Global) -> Found
        ensures rows { result.rows.items ≡ [] }
        ensures kept { result.kept.items ≡ [] }
        ensures skipped { result.skipped.items ≡ [] }
    {
        Found {
            rows: Vec::new(alloc),
            kept: Vec::new(alloc),
            skipped: Vec::new(alloc),
        }
    }
}

/// The turn of a block: it is skipped where it is ruled out, else it is kept and scanned.
pub(crate) fn scan_or_skip<S: ColumnStore>(
    alloc: Global,
    scan: &PreparedScan,
    slots: &[Option<Scalar>],
    store: &mut S,
    block: u32,
    is_out: bool,
    found: &mut Found,
) -> Result<(), ScanError>
    requires prepared { (f : Tree) × (p : Tree) × IsPreparedScan (S.seen store.old).zones slots.now f p scan.now }
    requires block { block < length (S.seen store.old).zones.lengths }
    requires fit { values_fit (type_view scan.now.projection.dtype) found.old.rows.items ≡ true }
    ensures same { IsSameStore (S.seen store.old) (S.seen store.new) }
    ensures moves { S.moves store.old store.new }
    ensures fit { IfOk result (λ _. values_fit (type_view scan.now.projection.dtype) found.new.rows.items ≡ true) }
    ensures turn { (f p : Tree) → IsPreparedScan (S.seen store.old).zones slots.now f p scan.now →
        let u = type_view scan.now.projection.dtype in
        TakesTurn is_out slots.now f p block (S.seen store.old) (S.seen store.new) (found_view u found.old) (found_view u found.new) result }
{
    if is_out {
        found.skipped.push(block)?;
        return Ok(());
    }
    found.kept.push(block)?;
    scan.scan_kept_block(alloc, slots, block, store, &mut found.rows)
}

/// The report of what a scan found.
pub(crate) fn report(scan: &PreparedScan, found: Found) -> Mem<ScanReport>
    ensures dtype { IfOk result (λ report. type_view report.dtype ≡ type_view scan.now.projection.dtype) }
    ensures rows { IfOk result (λ report. report.rows ≡ map raw_view found.rows.items) }
    ensures kept { IfOk result (λ report. report.kept ≡ found.kept.items) }
    ensures skipped { IfOk result (λ report. report.skipped ≡ found.skipped.items) }
    ensures filter { IfOk result (λ report. report.filter_columns ≡ scan.now.filter.columns) }
    ensures projection { IfOk result (λ report. report.projection_columns ≡ scan.now.projection.columns) }
{
    let Found {
        rows,
        kept,
        skipped,
    } = found;
    Ok(ScanReport {
        dtype: scan.projection.dtype().clone()?,
        rows: RowValues::new(rows),
        kept: BlockNumbers::new(kept),
        skipped: BlockNumbers::new(skipped),
        filter_columns: scan.filter.columns().clone()?,
        projection_columns: scan.projection.columns().clone()?,
    })
}
