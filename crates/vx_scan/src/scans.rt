// Scans of two expressions over a store, block by block.
ghost use Rattle.std.specs.Prelude.{◌≡◌, true, IfOk};
ghost use Rattle.vx_dtype.specs.TypeViews.{type_view};
ghost use Rattle.vx_column.specs.Columns.{raws_fit, values_fit};
ghost use Rattle.vx_expr.specs.Trees.{Tree};
ghost use Rattle.vx_wire.specs.Registries.{registered};
ghost use Rattle.vx_scan.specs.Stores.{IsSameStore};
ghost use Rattle.vx_scan.specs.Scanning.{IsScan, IsScanOf};
ghost use Rattle.vx_scan.specs.Steps.{IsRuledScan, EndsBlocks};

use crate::decoding::decode_expr;
use crate::errors::{ScanError, Side};
use crate::finding::{Found, report, scan_or_skip};
use crate::preparing::{PreparedScan, prepare_scan};
use crate::reports::ScanReport;
use crate::stores::ColumnStore;
use std::alloc::Global;
use vx_block_pruning::ruled_out;
use vx_dtype::Scalar;
use vx_expr::ExprRef;
use vx_wire::ExprRegistry;

/// Scans a store by two byte texts: the values of the projection at the rows at which the filter is true, over the blocks that the statistics
/// don't rule out. The rows fit the report's type.
///
/// First the filter's text is read and built, then the projection's; from then on it is [`scan_exprs`] without slots. The first refusal of a
/// text is answered, and nothing is read then.
pub fn scan<S: ColumnStore>(
    alloc: Global,
    registry: &ExprRegistry,
    filter: &[u8],
    projection: &[u8],
    store: &mut S,
) -> Result<ScanReport, ScanError>
    ensures same { IsSameStore (S.seen store.old) (S.seen store.new) }
    ensures moves { S.moves store.old store.new }
    ensures ends { IsScan (registered registry.now) filter.now projection.now (S.seen store.old) (S.seen store.new) result }
    ensures fit { IfOk result (λ report. raws_fit (type_view report.dtype) report.rows ≡ true) }
{
    let filter_expr = decode_expr(alloc, registry, filter, Side::Filter)?;
    let projection_expr = decode_expr(alloc, registry, projection, Side::Projection)?;
    let slots: Vec<Option<Scalar>> = Vec::new(alloc);
    scan_exprs(
        alloc,
        &filter_expr,
        &projection_expr,
        slots.as_slice(),
        store,
    )
}

/// Scans a store by two expressions and the slots of their dynamic comparisons, as [`scan`] does from typing on. The rows fit the report's type.
///
/// Before the first block come, in this order: the refusal of the filter's typing, TypeMismatch where it is typed and a slot doesn't fit it,
/// FilterNotBool where its type is no boolean, and the same two of the projection. Nothing is read then.
///
/// Then the blocks that the filter doesn't rule out, in order. Of each the columns that the filter asks are read in table order, and it is
/// evaluated. Where it is true at some row, the columns that the projection asks and the filter doesn't are read in table order, and the
/// projection is evaluated at these rows alone. Overflow and BadCast come where an asked node breaks at a row of such a phase, which was read
/// whole; StoreFault only where the store counted a fault, and the reads before the one that failed were made; after NoMemory some first reads
/// were made.
///
/// Source of the rule: a filter is evaluated before its projection's columns are read, and blocks without a matching row cost no more reads.
pub fn scan_exprs<S: ColumnStore>(
    alloc: Global,
    filter: &ExprRef,
    projection: &ExprRef,
    slots: &[Option<Scalar>],
    store: &mut S,
) -> Result<ScanReport, ScanError>
    ensures same { IsSameStore (S.seen store.old) (S.seen store.new) }
    ensures moves { S.moves store.old store.new }
    ensures ends { IsScanOf slots.now filter.now projection.now (S.seen store.old) (S.seen store.new) result }
    ensures fit { IfOk result (λ report. raws_fit (type_view report.dtype) report.rows ≡ true) }
{
    let scan = prepare_scan(alloc, filter, projection, slots, store.zones())?;
    // By the filter as it was given: what simplifying makes of it may rule out other blocks.
    let flags = ruled_out(alloc, store.zones(), filter, slots)?;
    let found = scan_blocks(alloc, &scan, flags.as_slice(), slots, store)?;
    Ok(report(&scan, found)?)
}

/// Scans the blocks in order: of each is told whether the filter rules it out.
fn scan_blocks<S: ColumnStore>(
    alloc: Global,
    scan: &PreparedScan,
    flags: &[bool],
    slots: &[Option<Scalar>],
    store: &mut S,
) -> Result<Found, ScanError>
    requires ruled { (f : Tree) × (p : Tree) × IsRuledScan (S.seen store.old).zones slots.now f p scan.now flags.now }
    ensures same { IsSameStore (S.seen store.old) (S.seen store.new) }
    ensures moves { S.moves store.old store.new }
    ensures ends { (f p : Tree) → IsRuledScan (S.seen store.old).zones slots.now f p scan.now flags.now →
        EndsBlocks slots.now f p (type_view scan.now.projection.dtype) (S.seen store.old) (S.seen store.new) result }
    ensures fit { IfOk result (λ found. values_fit (type_view scan.now.projection.dtype) found.rows.items ≡ true) }
{
    let mut found = Found::nothing(alloc);
    let blocks = store.zones().lengths().len() as u32;
    for block in 0..blocks {
        let is_out = flags[block as usize];
        scan_or_skip(alloc, scan, slots, store, block, is_out, &mut found)?;
    }
    Ok(found)
}
