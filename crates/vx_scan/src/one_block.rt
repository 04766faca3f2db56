// The scan of one block of a store, from typing to its report.
ghost use Rattle.std.specs.Prelude.{◌≡◌, ◌<◌, true, length, Ok, IfOk};
ghost use Rattle.vx_dtype.specs.TypeViews.{type_view};
ghost use Rattle.vx_dtype.specs.Types.{Ty};
ghost use Rattle.vx_column.specs.Columns.{raws_fit};
ghost use Rattle.vx_semantics.specs.Pruning.{rules_out};
ghost use Rattle.vx_semantics.specs.Slots.{slots_fit};
ghost use Rattle.vx_semantics.specs.Tables.{row_type};
ghost use Rattle.vx_semantics.specs.Typing.{typed_of};
ghost use Rattle.vx_scan.specs.Stores.{IsSameStore};
ghost use Rattle.vx_scan.specs.BlockScanning.{IsBlockScanOf};

use crate::errors::ScanError;
use crate::finding::{Found, report, scan_or_skip};
use crate::preparing::prepare_scan;
use crate::reports::ScanReport;
use crate::stores::ColumnStore;
use std::alloc::Global;
use vx_block_pruning::PruningRule;
use vx_dtype::{Mem, Scalar};
use vx_expr::ExprRef;
use vx_zones::ZoneMap;

/// Scans one block of a store by two expressions and the slots of their dynamic comparisons, as [`scan_exprs`](crate::scan_exprs) scans all: only
/// this block's statistics are gone over, and only its columns are read. Blocks are counted from 0. The rows fit the report's type.
///
/// Before the block come the refusals of [`prepare_scan`], in its order; nothing is read then. Where the filter rules the block out, it is
/// skipped: nothing is read, and the report has no row. Else it is kept and run as [`PreparedScan::scan_kept_block`](crate::PreparedScan) runs it,
/// whose refusals come then.
///
/// Source of the rule: slots may tighten between one block and the next, so that a later one may be ruled out that wasn't before.
pub fn scan_block<S: ColumnStore>(
    alloc: Global,
    filter: &ExprRef,
    projection: &ExprRef,
    slots: &[Option<Scalar>],
    block: u32,
    store: &mut S,
) -> Result<ScanReport, ScanError>
    requires block { block < length (S.seen store.old).zones.lengths }
    ensures same { IsSameStore (S.seen store.old) (S.seen store.new) }
    ensures moves { S.moves store.old store.new }
    ensures ends { IsBlockScanOf slots.now filter.now projection.now block (S.seen store.old) (S.seen store.new) result }
    ensures fit { IfOk result (λ report. raws_fit (type_view report.dtype) report.rows ≡ true) }
{
    let scan = prepare_scan(alloc, filter, projection, slots, store.zones())?;
    let is_out = is_ruled_out(alloc, store.zones(), block, filter, slots)?;
    let mut found = Found::nothing(alloc);
    scan_or_skip(alloc, &scan, slots, store, block, is_out, &mut found)?;
    Ok(report(&scan, found)?)
}

/// Whether a filter rules out this one block. The filter is typed over the table's rows, and the slots fit it.
fn is_ruled_out(
    alloc: Global,
    zones: &ZoneMap,
    block: u32,
    filter: &ExprRef,
    slots: &[Option<Scalar>],
) -> Mem<bool>
    requires typed { (u : Ty) × (typed_of (row_type zones.now.columns) filter.now ≡ Ok u) }
    requires slots { slots_fit slots.now filter.now ≡ true }
    requires block { block < length zones.now.lengths }
    ensures { IfOk result (λ out. out ≡ rules_out zones.now slots.now block filter.now) }
{
    let rule = PruningRule::new(alloc, zones, filter)?;
    let flags = rule.rules_out(alloc, zones, block, 1, slots)?;
    Ok(flags[0])
}
