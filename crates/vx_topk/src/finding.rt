// The first rows of a table by a key, found block by block.
ghost use Rattle.std.specs.Prelude.{◌≡◌, ◌<◌, true, false, length, List, IfOk, nat_eq};
ghost use Rattle.vx_dtype.specs.Types.{Ty};
ghost use Rattle.vx_dtype.specs.TypeViews.{type_view};
ghost use Rattle.vx_column.specs.Columns.{values_fit};
ghost use Rattle.vx_expr.specs.Trees.{Tree};
ghost use Rattle.vx_laws_topk.specs.TopRows.{Keyed, TopAsk};
ghost use Rattle.vx_scan.specs.Stores.{IsSameStore};
ghost use Rattle.vx_scan.specs.Opening.{IsPreparedScan};
ghost use Rattle.vx_topk.specs.FirstRows.{HoldFirst, IsAskedBy, AsksTheSame, start_of};
ghost use Rattle.vx_topk.specs.Ready.{IsReady};
ghost use Rattle.vx_topk.specs.RuledRuns.{AreRuledBehind};
ghost use Rattle.vx_topk.specs.TopRuns.{GivesRows, TakesTurn, EndsFinding};

use crate::first_rows::FirstRows;
use crate::ready::TopScan;
use crate::ruled_runs::RuledRun;
use std::alloc::Global;
use vx_dtype::{Scalar, ScalarValue};
use vx_scan::{ColumnStore, ScanError};

/// What was found so far: the first rows, and the numbers of the blocks that were skipped; and what is held of the pruning rule's answers with
/// the bound that these rows give.
#[derive(Drop)]
pub(crate) struct Finding {
    pub(crate) first: FirstRows,
    pub(crate) skipped: Vec<u32>,
    pub(crate) ruled: RuledRun,
}

/// The first rows over all blocks, of which at least one is asked. A block is skipped where the bounded filter rules it out, with the bound that
/// the rows before it give.
pub(crate) fn find_rows<S: ColumnStore>(
    alloc: Global,
    top: &TopScan,
    count: u32,
    descending: bool,
    store: &mut S,
) -> Result<Finding, ScanError>
    requires ready { (ask : TopAsk) × (v : Ty) × IsReady (S.seen store.old).zones ask v top.now × (ask.count ≡ count) × (ask.descending ≡ descending)
        × (nat_eq count 0 ≡ false) }
    ensures same { IsSameStore (S.seen store.old) (S.seen store.new) }
    ensures moves { S.moves store.old store.new }
    ensures ends { (ask : TopAsk) (v : Ty) → IsReady (S.seen store.old).zones ask v top.now → ask.count ≡ count → ask.descending ≡ descending →
        nat_eq count 0 ≡ false → EndsFinding ask v (S.seen store.old) (S.seen store.new) result }
    ensures asked { IfOk result (λ finding. (finding.first.count ≡ count) × (finding.first.descending ≡ descending)) }
{
    let first = FirstRows::new(alloc, count, descending);
    let skipped = Vec::new(alloc);
    let ruled = RuledRun::none(alloc);
    let mut finding = Finding {
        first,
        skipped,
        ruled,
    };
    let blocks = store.zones().lengths().len() as u32;
    for block in 0..blocks {
        find_or_skip(alloc, top, store, block, &mut finding)?;
    }
    Ok(finding)
}

/// The turn of a block: it is skipped where the bounded filter rules it out, with the bound that the rows before it give; else its rows are put
/// in, and what the rule says is held no longer, since the bound may be another then.
fn find_or_skip<S: ColumnStore>(
    alloc: Global,
    top: &TopScan,
    store: &mut S,
    block: u32,
    finding: &mut Finding,
) -> Result<(), ScanError>
    requires ready { (ask : TopAsk) × (v : Ty) × (found : List Keyed) × IsReady (S.seen store.old).zones ask v top.now
        × IsAskedBy ask ask.key_type finding.old.first × HoldFirst ask.key_type v found (start_of block) finding.old.first
        × AreRuledBehind ask (S.seen store.old).zones found finding.old.ruled × (nat_eq ask.count 0 ≡ false) }
    requires block { block < length (S.seen store.old).zones.lengths }
    ensures same { IsSameStore (S.seen store.old) (S.seen store.new) }
    ensures moves { S.moves store.old store.new }
    ensures asked { IfOk result (λ _. AsksTheSame finding.old.first finding.new.first) }
    ensures turn { (ask : TopAsk) (v : Ty) (found : List Keyed) → IsReady (S.seen store.old).zones ask v top.now →
        IsAskedBy ask ask.key_type finding.old.first → HoldFirst ask.key_type v found (start_of block) finding.old.first →
        AreRuledBehind ask (S.seen store.old).zones found finding.old.ruled → nat_eq ask.count 0 ≡ false →
        TakesTurn ask v found block (S.seen store.old) (S.seen store.new) finding.old finding.new result }
{
    let slots = [finding.first.bound(&top.key_dtype)?];
    if finding
        .ruled
        .rules_out(alloc, &top.rule, store.zones(), block, &slots)?
    {
        finding.skipped.push(block)?;
        return Ok(());
    }
    let rows = rows_of_block(alloc, top, &slots, store, block)?;
    finding.first.put_rows(rows.as_slice(), block)?;
    finding.ruled = RuledRun::none(alloc);
    Ok(())
}

/// The rows of a block at which the bounded filter is true, with this bound in its slot: each the struct of its key and its value.
fn rows_of_block<S: ColumnStore>(
    alloc: Global,
    top: &TopScan,
    slots: &[Option<Scalar>],
    store: &mut S,
    block: u32,
) -> Result<Vec<ScalarValue>, ScanError>
    requires prepared { (f : Tree) × (p : Tree) × IsPreparedScan (S.seen store.old).zones slots.now f p top.now.scan }
    requires block { block < length (S.seen store.old).zones.lengths }
    ensures same { IsSameStore (S.seen store.old) (S.seen store.new) }
    ensures moves { S.moves store.old store.new }
    ensures runs { (f p : Tree) → IsPreparedScan (S.seen store.old).zones slots.now f p top.now.scan →
        GivesRows slots.now f p block (type_view top.now.scan.projection.dtype) (S.seen store.old) (S.seen store.new) result }
    ensures fit { IfOk result (λ rows. values_fit (type_view top.now.scan.projection.dtype) rows.items ≡ true) }
{
    let mut rows = Vec::new(alloc);
    top.scan
        .scan_kept_block(alloc, slots, block, store, &mut rows)?;
    Ok(rows)
}
