// The first rows of a store's table by a key.
ghost use Rattle.std.specs.Prelude.{◌≡◌, ◌<◌, ◌^◌, true, false, nat_eq, length, [], IfOk};
ghost use Rattle.vx_dtype.specs.TypeViews.{type_view};
ghost use Rattle.vx_column.specs.Columns.{raws_fit};
ghost use Rattle.vx_laws_topk.specs.TopLaws.{has_no_slot};
ghost use Rattle.vx_scan.specs.Stores.{IsSameStore};
ghost use Rattle.vx_topk.specs.TopEnds.{numbers_of, top_ask, IsTypedTop, IsTopOf};
ghost use Rattle.vx_topk.specs.Ready.{AreTyped};
ghost use Rattle.vx_topk.specs.Tops.{EndsTop, ReportsFinding};

use crate::errors::TopError;
use crate::finding::{Finding, find_rows};
use crate::ready::{key_type, make_ready, row_dtype};
use crate::reports::TopReport;
use std::alloc::Global;
use vx_dtype::{DType, FieldName, Mem};
use vx_expr::ExprRef;
use vx_scan::{BlockNumbers, ColumnStore, RowValues};
use vx_zones::ZoneMap;

/// The first `k` rows of a store's table by a key: of the rows at which the filter is true, those whose keys stand first, with what the
/// projection means there. The least key stands first, or the greatest where the order descends; null stands behind all other keys, and rows of
/// one key stand in the table's order. The rows fit the report's type, which is the projection's.
///
/// Before the first block come, in this order: UnknownKey where the table has no column of the key's name, BadKey where that column's type isn't
/// plain, and the refusals of a scan of filter and projection without slots. Nothing is read then.
///
/// Then the blocks, in order. A block is skipped where no row is asked, or where its statistics rule out the filter joined by `and` with the test
/// that the key stands before the bound; the bound is the key of the last of the first rows found so far, where there are as many as are asked
/// and it isn't null. Each other block is scanned by that filter as [`vx_scan::scan_exprs`] scans one, for the key and the projection. Overflow,
/// BadCast, StoreFault and NoMemory come as there.
///
/// The skipped blocks are in order, none of them is read, and those that the filter alone rules out are among them, whatever is found.
///
/// Over honest statistics these are the first of all rows at which the filter is true.
///
/// Source of the rule: a bound that tightens while rows come in skips blocks that can't hold any of the first rows.
pub fn top_rows<S: ColumnStore>(
    alloc: Global,
    filter: &ExprRef,
    projection: &ExprRef,
    key: &FieldName,
    descending: bool,
    k: u32,
    store: &mut S,
) -> Result<TopReport, TopError>
    requires filter { has_no_slot filter.now ≡ true }
    requires projection { has_no_slot projection.now ≡ true }
    ensures same { IsSameStore (S.seen store.old) (S.seen store.new) }
    ensures moves { S.moves store.old store.new }
    ensures ends { IsTopOf filter.now projection.now key.now descending k (S.seen store.old) (S.seen store.new) result }
    ensures fit { IfOk result (λ report. raws_fit (type_view report.dtype) report.rows ≡ true) }
{
    let key_dtype = key_type(store.zones(), key)?;
    let dtype = row_dtype(alloc, filter, projection, store.zones())?;
    if k == 0 {
        let zones = store.zones();
        return Ok(no_rows(alloc, dtype, zones)?);
    }
    typed_top_rows(
        alloc, filter, projection, key, key_dtype, dtype, descending, k, store,
    )
}

/// The report of no rows, where none is asked: all blocks are skipped.
fn no_rows(alloc: Global, dtype: DType, zones: &ZoneMap) -> Mem<TopReport>
    ensures dtype { IfOk result (λ report. type_view report.dtype ≡ type_view dtype) }
    ensures rows { IfOk result (λ report. report.rows ≡ []) }
    ensures skipped { IfOk result (λ report. report.skipped ≡ numbers_of zones.now.lengths) }
{
    Ok(TopReport {
        dtype,
        rows: RowValues::new(Vec::new(alloc)),
        skipped: BlockNumbers::new(block_numbers(alloc, zones.lengths())?),
    })
}

/// The numbers of blocks of these lengths, from 0 on.
fn block_numbers(alloc: Global, lengths: &[u32]) -> Mem<Vec<u32>>
    requires { length lengths.now < 2 ^ 32 }
    ensures { IfOk result (λ numbers. numbers.items ≡ numbers_of lengths.now) }
{
    let mut numbers = Vec::new(alloc);
    for block in 0..lengths.len() as u32 {
        numbers.push(block)?;
    }
    Ok(numbers)
}

/// The first rows by a key, of which at least one is asked: filter and projection are typed, and the key is of this type.
fn typed_top_rows<S: ColumnStore>(
    alloc: Global,
    filter: &ExprRef,
    projection: &ExprRef,
    key: &FieldName,
    key_dtype: DType,
    dtype: DType,
    descending: bool,
    k: u32,
    store: &mut S,
) -> Result<TopReport, TopError>
    requires filter { has_no_slot filter.now ≡ true }
    requires projection { has_no_slot projection.now ≡ true }
    requires typed { IsTypedTop (S.seen store.old).zones (top_ask filter.now projection.now key.now descending k (type_view key_dtype)) (type_view dtype) }
    requires both { AreTyped (S.seen store.old).zones filter.now projection.now (type_view dtype) }
    requires some { nat_eq k 0 ≡ false }
    ensures same { IsSameStore (S.seen store.old) (S.seen store.new) }
    ensures moves { S.moves store.old store.new }
    ensures ends { EndsTop (top_ask filter.now projection.now key.now descending k (type_view key_dtype)) (type_view dtype)
        (S.seen store.old) (S.seen store.new) result }
    ensures fit { IfOk result (λ report. raws_fit (type_view report.dtype) report.rows ≡ true) }
{
    let top = make_ready(
        alloc,
        filter,
        projection,
        key,
        key_dtype,
        descending,
        store.zones(),
    )?;
    let finding = find_rows(alloc, &top, k, descending, store)?;
    Ok(report(alloc, dtype, finding)?)
}

/// The report of what was found.
fn report(alloc: Global, dtype: DType, finding: Finding) -> Mem<TopReport>
    ensures { IfOk result (ReportsFinding (type_view dtype) finding) }
{
    let Finding {
        first,
        skipped,
        ruled: _,
    } = finding;
    Ok(TopReport {
        dtype,
        rows: RowValues::new(first.into_values(alloc)?),
        skipped: BlockNumbers::new(skipped),
    })
}
