// The first rows by a key: they are known behind the last block.
ghost use Rattle.std.specs.Prelude.{◌≡◌, ◌≤◌, true, length, IfOk};
ghost use Rattle.vx_column.specs.Columns.{raws_fit};
ghost use Rattle.vx_dtype.specs.TypeViews.{type_view};
ghost use Rattle.vx_dtype.specs.Types.{Ty};
ghost use Rattle.vx_laws_shell.specs.Running.{end_by};
ghost use Rattle.vx_laws_topk.specs.TopLaws.{has_no_slot};
ghost use Rattle.vx_scan.specs.Stores.{IsSameStore};
ghost use Rattle.vx_sql.specs.StatementAnswers.{key_view};
ghost use Rattle.vx_topk.specs.TopEnds.{IsTypedTop, top_view};
ghost use Rattle.vx_shell.specs.Founds.{FindsByKey, asked_by};
ghost use Rattle.vx_shell.specs.KeyedSteps.{ComesOfTop, GivesTop, IsTopRefusal, WritesTop};

use crate::answers::Found;
use crate::errors::Refusal;
use crate::row_lines::write_rows;
use crate::rows_in_order::{number_of_blocks, scan_refusal};
use std::alloc::Global;
use vx_expr::ExprRef;
use vx_io::Sink;
use vx_scan::ColumnStore;
use vx_sql::Key;
use vx_topk::{TopError, TopReport, top_rows};

/// Why the first rows aren't found of typed expressions by a key that is a column.
fn top_refusal(error: TopError) -> Refusal
    requires { ComesOfTop error }
    ensures { IsTopRefusal error result }
{
    match error {
        TopError::NoMemory => Refusal::NoMemory,
        TopError::Scan(error) => scan_refusal(error),
        TopError::UnknownKey => unreachable!(),
        TopError::BadKey => unreachable!(),
    }
}

/// The report of the first rows.
fn top_of<S: ColumnStore>(
    alloc: Global,
    filter: &ExprRef,
    projection: &ExprRef,
    key: &Key,
    count: u32,
    store: &mut S,
) -> Result<TopReport, Refusal>
    requires filter { has_no_slot filter.now ≡ true }
    requires projection { has_no_slot projection.now ≡ true }
    requires typed { (ty : Ty) × IsTypedTop (S.seen store.old).zones
        (asked_by (S.seen store.old).zones filter.now projection.now (key_view key.now) count) ty }
    ensures same { IsSameStore (S.seen store.old) (S.seen store.new) }
    ensures moves { S.moves store.old store.new }
    ensures gives { GivesTop (asked_by (S.seen store.old).zones filter.now projection.now (key_view key.now) count)
        (S.seen store.old) (S.seen store.new) result }
    ensures fit { IfOk result (λ report. raws_fit (type_view report.dtype) report.rows ≡ true) }
{
    match top_rows(
        alloc,
        filter,
        projection,
        &key.column,
        key.descending,
        count,
        store,
    ) {
        Ok(report) => Ok(report),
        Err(error) => Err(top_refusal(error)),
    }
}

/// Writes the first so many rows by a key, of those at which a filter is true, with what the projection means there. The filter and the projection are
/// strictly typed over the table's rows, the filter a boolean, and the key is one of the table's columns, of a plain type.
///
/// At most `count` rows are held. Overflow, BadCast and StoreFault come as in [`vx_topk::top_rows`]; nothing is written then.
pub(crate) fn write_by_key<S: ColumnStore, O: Sink>(
    alloc: Global,
    filter: &ExprRef,
    projection: &ExprRef,
    key: &Key,
    count: u32,
    store: &mut S,
    output: &mut O,
) -> Result<Found, Refusal>
    requires filter { has_no_slot filter.now ≡ true }
    requires projection { has_no_slot projection.now ≡ true }
    requires typed { (ty : Ty) × IsTypedTop (S.seen store.old).zones
        (asked_by (S.seen store.old).zones filter.now projection.now (key_view key.now) count) ty }
    ensures same { IsSameStore (S.seen store.old) (S.seen store.new) }
    ensures moves { S.moves store.old store.new }
    ensures later { O.faults output.old ≤ O.faults output.new }
    ensures finds { FindsByKey filter.now projection.now (key_view key.now) count (S.seen store.old) (S.seen store.new)
        (end_by O.written O.faults output.old) (end_by O.written O.faults output.new) result }
{
    let blocks = number_of_blocks(store.zones());
    match top_of(alloc, filter, projection, key, count, store) {
        Ok(report) => write_top(alloc, blocks, &report, output),
        Err(refusal) => Err(refusal),
    }
}

/// Writes the rows of a report of the first rows of a table with so many blocks.
fn write_top<O: Sink>(
    alloc: Global,
    blocks: u32,
    report: &TopReport,
    output: &mut O,
) -> Result<Found, Refusal>
    requires fit { raws_fit (type_view report.now.dtype) report.now.rows ≡ true }
    requires few { length report.now.skipped ≤ blocks }
    ensures later { O.faults output.old ≤ O.faults output.new }
    ensures writes { WritesTop (top_view report.now) blocks (end_by O.written O.faults output.old) (end_by O.written O.faults output.new) result }
{
    match write_rows(alloc, &report.dtype, report.rows.as_slice(), output) {
        Ok(()) => Ok(Found {
            blocks,
            skipped: report.skipped.as_slice().len() as u32,
            rows: report.rows.as_slice().len() as u64,
        }),
        Err(refusal) => Err(refusal),
    }
}
