// The scan of one block: its reads, and the rows that it gives.
ghost use Rattle.std.specs.Prelude.{◌≡◌, ◌<◌, nat_eq, true, length, map, ◌++◌, IfOk};
ghost use Rattle.std.specs.List.{list_all};
ghost use Rattle.vx_dtype.specs.TypeRules.{is_bool_ty};
ghost use Rattle.vx_dtype.specs.TypeViews.{type_view};
ghost use Rattle.vx_dtype.specs.Types.{Ty};
ghost use Rattle.vx_column.specs.Columns.{seen_rows, values_fit};
ghost use Rattle.vx_expr.specs.Trees.{Tree};
ghost use Rattle.vx_laws_simplifying.specs.Narrowing.{narrows};
ghost use Rattle.vx_semantics.specs.Scans.{reads_in, further_columns, matching_rows, block_rows};
ghost use Rattle.vx_semantics.specs.Tables.{row_type};
ghost use Rattle.vx_scan.specs.Stores.{WhereTold, AgreesWith, IsSameStore};
ghost use Rattle.vx_scan.specs.BlockRuns.{RunsBlock};
ghost use Rattle.vx_scan.specs.Opening.{IsPreparedScan};
ghost use Rattle.vx_scan.specs.Steps.{kept_column, RunsPart, IsFiltered, AddsToldRows};

use crate::errors::ScanError;
use crate::filtering::{FilteredBlock, evaluated, filter_block};
use crate::preparing::PreparedScan;
use crate::reading::{block_length, read_columns};
use crate::stores::ColumnStore;
use std::alloc::Global;
use vx_column::ColumnRef;
use vx_dtype::{Mem, Scalar, ScalarValue};

impl PreparedScan {
    /// Runs the scan in one block, whatever its statistics show: reads the columns that the filter asks, in table order, and evaluates it; where it
    /// is true at some row, reads the columns that the projection asks and the filter doesn't, in table order, evaluates the projection at these
    /// rows alone, and puts its values behind the rows. These are values of [`PreparedScan::dtype`].
    ///
    /// Blocks are counted from 0. The store has the statistics with which the scan was prepared, and the slots fit the expressions: they may be
    /// others than those with which it was prepared.
    ///
    /// Overflow and BadCast come where an asked node breaks at a row of a phase that was read whole; StoreFault only where the store counted a
    /// fault, and the reads before the one that failed were made; after NoMemory some first reads were made. No other refusal comes. What the
    /// rows hold after a refusal isn't told.
    pub fn scan_kept_block<S: ColumnStore>(
        &self,
        alloc: Global,
        slots: &[Option<Scalar>],
        block: u32,
        store: &mut S,
        rows: &mut Vec<ScalarValue>,
    ) -> Result<(), ScanError>
        requires prepared { (f : Tree) × (p : Tree) × IsPreparedScan (S.seen store.old).zones slots.now f p self.now }
        requires block { block < length (S.seen store.old).zones.lengths }
        requires fit { values_fit (type_view self.now.projection.dtype) rows.old.items ≡ true }
        ensures same { IsSameStore (S.seen store.old) (S.seen store.new) }
        ensures moves { S.moves store.old store.new }
        ensures runs { (f p : Tree) → IsPreparedScan (S.seen store.old).zones slots.now f p self.now →
            RunsBlock slots.now f p block (S.seen store.old) (S.seen store.new) (seen_rows (type_view self.now.projection.dtype) rows.old.items)
            (seen_rows (type_view self.now.projection.dtype) rows.new.items) result }
        ensures fit { IfOk result (λ _. values_fit (type_view self.now.projection.dtype) rows.new.items ≡ true) }
    {
        let len = block_length(store.zones(), block);
        let filtered = filter_block(alloc, self, slots, store, block, len)?;
        if filtered.count == 0 {
            return Ok(());
        }
        project_block(alloc, self, slots, store, block, &filtered, rows)
    }
}

/// Reads the columns of a filtered block that the projection asks and the filter doesn't, in order, evaluates the projection at the rows at which
/// the filter is true, and puts its values behind the rows.
fn project_block<S: ColumnStore>(
    alloc: Global,
    scan: &PreparedScan,
    slots: &[Option<Scalar>],
    store: &mut S,
    block: u32,
    filtered: &FilteredBlock,
    rows: &mut Vec<ScalarValue>,
) -> Result<(), ScanError>
    requires prepared { (f : Tree) × (p : Tree) × IsPreparedScan (S.seen store.old).zones slots.now f p scan.now
        × IsFiltered slots.now f scan.now.filter.columns block (S.seen store.old) filtered.now }
    requires agrees { WhereTold (S.seen store.old).held (AgreesWith (S.seen store.old).zones) }
    requires block { block < length (S.seen store.old).zones.lengths }
    requires fit { values_fit (type_view scan.now.projection.dtype) rows.old.items ≡ true }
    ensures same { IsSameStore (S.seen store.old) (S.seen store.new) }
    ensures moves { S.moves store.old store.new }
    ensures runs { (f p : Tree) → IsPreparedScan (S.seen store.old).zones slots.now f p scan.now →
        IsFiltered slots.now f scan.now.filter.columns block (S.seen store.old) filtered.now →
        let t = row_type (S.seen store.old).zones.columns in
        RunsPart slots.now p (reads_in block (further_columns t f p)) block (matching_rows t slots.now f) (S.seen store.old) (S.seen store.new) result }
    ensures rows { (f p : Tree) → IsPreparedScan (S.seen store.old).zones slots.now f p scan.now →
        IsFiltered slots.now f scan.now.filter.columns block (S.seen store.old) filtered.now →
        let t = row_type (S.seen store.old).zones.columns in let u = type_view scan.now.projection.dtype in
        WhereTold (S.seen store.old).held (AddsToldRows (block_rows t slots.now f p) block (seen_rows u rows.old.items) (seen_rows u rows.new.items) result) }
    ensures fit { IfOk result (λ _. values_fit (type_view scan.now.projection.dtype) rows.new.items ≡ true) }
{
    let columns = read_columns(
        alloc,
        store,
        block,
        scan.projection.columns().as_slice(),
        scan.filter.columns(),
        filtered.columns.as_slice(),
    )?;
    let kept = kept_columns(alloc, columns.as_slice(), &filtered.keep)?;
    let values = evaluated(
        alloc,
        &scan.projection,
        kept.as_slice(),
        filtered.count,
        slots,
    )?;
    push_values(alloc, &values, rows)?;
    Ok(())
}

/// The columns, each at the rows at which another one is true.
fn kept_columns(alloc: Global, columns: &[ColumnRef], keep: &ColumnRef) -> Mem<Vec<ColumnRef>>
    requires mask { is_bool_ty keep.now.ty ≡ true }
    requires lengths { list_all (λ c. nat_eq (length c.rows) (length keep.now.rows)) columns.now ≡ true }
    ensures { IfOk result (λ kept. kept.items ≡ map (kept_column keep.now.rows) columns.now) }
{
    let mut kept = Vec::new(alloc);
    for i in 0..columns.len() {
        kept.push(columns[i].filter(alloc, keep)?)?;
    }
    Ok(kept)
}

/// Puts the values of a column behind rows: they are the same values at any type that is the column's but perhaps more nullable.
fn push_values(alloc: Global, column: &ColumnRef, rows: &mut Vec<ScalarValue>) -> Mem<()>
    ensures fit { (u : Ty) → narrows column.now.ty u ≡ true → values_fit u rows.old.items ≡ true →
        IfOk result (λ _. values_fit u rows.new.items ≡ true) }
    ensures rows { (u : Ty) → narrows column.now.ty u ≡ true →
        IfOk result (λ _. seen_rows u rows.new.items ≡ seen_rows u rows.old.items ++ column.now.rows) }
{
    column.append_to(alloc, rows)
}
