// The first phase of a block: the filter at all of its rows.
ghost use Rattle.std.specs.Prelude.{◌≡◌, ◌<◌, true, List, length, map, Some, IfOk};
ghost use Rattle.std.specs.List.{list_all, slice_get};
ghost use Rattle.vx_dtype.specs.Types.{Fields};
ghost use Rattle.vx_dtype.specs.TypeRules.{no_name_twice};
ghost use Rattle.vx_dtype.specs.TypeViews.{type_view};
ghost use Rattle.vx_dtype.specs.Values.{Val};
ghost use Rattle.vx_expr.specs.Trees.{Tree};
ghost use Rattle.vx_laws_simplifying.specs.Narrowing.{narrows};
ghost use Rattle.vx_semantics.specs.Asked.{asked_columns};
ghost use Rattle.vx_semantics.specs.Scans.{reads_in};
ghost use Rattle.vx_semantics.specs.Tables.{row_type};
ghost use Rattle.vx_prepare.specs.Preparing.{IsPrepared, AreOf, HaveColumns, CanBeOver};
ghost use Rattle.vx_scan.specs.Stores.{WhereTold, AgreesWith, IsSameStore};
ghost use Rattle.vx_scan.specs.Opening.{IsPreparedScan};
ghost use Rattle.vx_scan.specs.Steps.{ending, GivesAsked, BreaksAsAsked, RunsPart, IsFiltered};

use crate::errors::ScanError;
use crate::preparing::PreparedScan;
use crate::reading::read_columns;
use crate::stores::ColumnStore;
use std::alloc::Global;
use vx_column::ColumnRef;
use vx_dtype::{FieldNames, Scalar};
use vx_eval::EvalError;
use vx_prepare::PreparedExpr;

/// A block that is filtered: the columns that the filter asks, its truth at each row, and how many rows it is true at.
#[derive(Drop)]
pub(crate) struct FilteredBlock {
    pub(crate) columns: Vec<ColumnRef>,
    pub(crate) keep: ColumnRef,
    pub(crate) count: usize,
}

/// Reads the columns of a block that the filter asks, in order, and evaluates it at the block's rows.
pub(crate) fn filter_block<S: ColumnStore>(
    alloc: Global,
    scan: &PreparedScan,
    slots: &[Option<Scalar>],
    store: &mut S,
    block: u32,
    len: usize,
) -> Result<FilteredBlock, ScanError>
    requires prepared { (f : Tree) × (p : Tree) × IsPreparedScan (S.seen store.old).zones slots.now f p scan.now }
    requires len { slice_get (S.seen store.old).zones.lengths block ≡ Some len }
    requires agrees { WhereTold (S.seen store.old).held (AgreesWith (S.seen store.old).zones) }
    ensures same { IsSameStore (S.seen store.old) (S.seen store.new) }
    ensures moves { S.moves store.old store.new }
    ensures runs { (f p : Tree) → IsPreparedScan (S.seen store.old).zones slots.now f p scan.now →
        RunsPart slots.now f (reads_in block (asked_columns (row_type (S.seen store.old).zones.columns) f)) block (λ rows. rows)
        (S.seen store.old) (S.seen store.new) (ending result) }
    ensures filtered { (f p : Tree) → IsPreparedScan (S.seen store.old).zones slots.now f p scan.now →
        IfOk result (λ filtered. IsFiltered slots.now f scan.now.filter.columns block (S.seen store.old) filtered) }
{
    let names = scan.filter.columns().as_slice();
    let none = FieldNames::new(alloc, Vec::new(alloc))?;
    let unread: Vec<ColumnRef> = Vec::new(alloc);
    let columns = read_columns(alloc, store, block, names, &none, unread.as_slice())?;
    let keep = evaluated(alloc, &scan.filter, columns.as_slice(), len, slots)?;
    let count = keep.true_count();
    Ok(FilteredBlock {
        columns,
        keep,
        count,
    })
}

/// What an expression gives over so many rows of the columns that it asks.
pub(crate) fn evaluated(
    alloc: Global,
    expr: &PreparedExpr,
    columns: &[ColumnRef],
    len: usize,
    slots: &[Option<Scalar>],
) -> Result<ColumnRef, ScanError>
    requires { CanBeOver slots.now expr.now len columns.now }
    ensures told { (fs : Fields) (e : Tree) → IsPrepared fs slots.now e expr.now → no_name_twice (row_type fs) ≡ true →
        AreOf fs len expr.now.columns columns.now → (rows : List Val) → HaveColumns fs len expr.now.columns columns.now rows →
        GivesAsked (row_type fs) slots.now e rows result }
    ensures causes { (fs : Fields) (e : Tree) → IsPrepared fs slots.now e expr.now → no_name_twice (row_type fs) ≡ true →
        AreOf fs len expr.now.columns columns.now → BreaksAsAsked (row_type fs) e result }
    ensures len { IfOk result (λ c. length c.rows ≡ len) }
    ensures dtype { IfOk result (λ c. narrows c.ty (type_view expr.now.dtype) ≡ true) }
{
    match expr.evaluate(alloc, columns, len, slots) {
        Ok(column) => Ok(column),
        Err(EvalError::NoMemory) => Err(ScanError::NoMemory),
        Err(EvalError::Overflow) => Err(ScanError::Overflow),
        Err(EvalError::BadCast) => Err(ScanError::BadCast),
        Err(EvalError::Typing(_)) => unreachable!(),
    }
}
