// Rows in the table's order: each block's are written before the next block is read.
ghost use Rattle.std.specs.Prelude.{◌≡◌, ◌<◌, ◌≤◌, ◌+◌, ◌-◌, ◌^◌, true, false, [], Ok, length, min, IfOk};
ghost use Rattle.std.specs.List.{sum};
ghost use Rattle.vx_column.specs.Columns.{seen_rows, values_fit};
ghost use Rattle.vx_dtype.specs.TypeViews.{type_view};
ghost use Rattle.vx_dtype.specs.Types.{Ty};
ghost use Rattle.vx_expr.specs.Trees.{Tree};
ghost use Rattle.vx_laws_shell.specs.Answers.{first_of_rows};
ghost use Rattle.vx_laws_shell.specs.Running.{end_by};
ghost use Rattle.vx_scan.specs.ErrorKinds.{kind_of};
ghost use Rattle.vx_scan.specs.Opening.{IsPreparedScan};
ghost use Rattle.vx_scan.specs.Scanning.{scan_type};
ghost use Rattle.vx_scan.specs.Steps.{IsRuledScan};
ghost use Rattle.vx_scan.specs.Stores.{AgreesWith, IsSameStore, WhereTold};
ghost use Rattle.vx_semantics.specs.Tables.{row_type};
ghost use Rattle.vx_shell.specs.Founds.{CountsFault, FindsInOrder};
ghost use Rattle.vx_shell.specs.OrderedSteps.{Goes, GivesBlock, RunsToEnd, TakesTurn, WritesWanted, wants_none};
ghost use Rattle.vx_laws_shell.specs.OrderedRuns.{limit_behind, wanted_among};
ghost use Rattle.vx_shell.specs.Refusals.{ComesInBlock, IsScanRefusal};

use crate::answers::Found;
use crate::errors::Refusal;
use crate::row_lines::write_rows;
use std::alloc::Global;
use vx_block_pruning::ruled_out;
use vx_dtype::{DType, NoMemory, Scalar, ScalarValue};
use vx_expr::ExprRef;
use vx_io::Sink;
use vx_scan::{ColumnStore, PreparedScan, ScanError, prepare_scan};
use vx_zones::ZoneMap;

/// Why the scan of a block ends by an error.
pub(crate) fn scan_refusal(error: ScanError) -> Refusal
    requires { ComesInBlock (kind_of error) }
    ensures { IsScanRefusal (kind_of error) result }
{
    match error {
        ScanError::NoMemory => Refusal::NoMemory,
        ScanError::Overflow => Refusal::Overflow,
        ScanError::BadCast => Refusal::BadCast,
        ScanError::StoreFault => Refusal::StoreFault,
        _ => unreachable!(),
    }
}

/// The rows of a block at which the filter is true.
fn rows_of_block<S: ColumnStore>(
    alloc: Global,
    scan: &PreparedScan,
    block: u32,
    store: &mut S,
) -> Result<Vec<ScalarValue>, Refusal>
    requires prepared { (f : Tree) × (p : Tree) × IsPreparedScan (S.seen store.old).zones [] f p scan.now }
    requires block { block < length (S.seen store.old).zones.lengths }
    ensures same { IsSameStore (S.seen store.old) (S.seen store.new) }
    ensures moves { S.moves store.old store.new }
    ensures gives { (f p : Tree) → IsPreparedScan (S.seen store.old).zones [] f p scan.now →
        GivesBlock f p block (type_view scan.now.projection.dtype) (S.seen store.old) (S.seen store.new) result }
    ensures fit { IfOk result (λ rows. values_fit (type_view scan.now.projection.dtype) rows.items ≡ true) }
{
    let slots: [Option<Scalar>; 0] = [];
    let mut rows = Vec::new(alloc);
    match scan.scan_kept_block(alloc, &slots, block, store, &mut rows) {
        Ok(()) => Ok(rows),
        Err(error) => Err(scan_refusal(error)),
    }
}

/// Whether no more rows are wanted.
fn wants_none(left: Option<u64>) -> bool
    ensures { result ≡ wants_none left }
{
    match left {
        None => false,
        Some(left) => left == 0,
    }
}

/// How many of so many rows are wanted.
fn wanted_among(left: Option<u64>, rows: usize) -> usize
    ensures { result ≡ wanted_among left rows }
{
    match left {
        None => rows,
        Some(left) => left.min(rows as u64) as usize,
    }
}

/// How many rows are wanted behind so many.
fn limit_behind(left: Option<u64>, rows: usize) -> Option<u64>
    ensures { result ≡ limit_behind left rows }
{
    match left {
        None => None,
        Some(left) => Some(left.saturating_sub(rows as u64)),
    }
}

/// What is written so far: how many rows, how many blocks were scanned, and how many rows are wanted still.
#[derive(Clone, Copy)]
pub(crate) struct Written {
    rows: u64,
    scanned: u32,
    left: Option<u64>,
}

impl Written {
    /// What is written behind a block that gave so many rows, of which as many as are wanted were written.
    fn behind(self, rows: usize) -> Written
        requires { self.scanned < 2 ^ 32 - 1 }
        ensures rows { result.rows ≡ min (self.rows + wanted_among self.left rows) (2 ^ 64 - 1) }
        ensures scanned { result.scanned ≡ self.scanned + 1 }
        ensures left { result.left ≡ limit_behind self.left rows }
    {
        Written {
            rows: self
                .rows
                .saturating_add(wanted_among(self.left, rows) as u64),
            scanned: self.scanned + 1,
            left: limit_behind(self.left, rows),
        }
    }
}

/// Of the rows of a block those that are wanted: all, or the first so many.
fn wanted_rows(left: Option<u64>, rows: &[ScalarValue]) -> &[ScalarValue]
    ensures rows { (t : Ty) → seen_rows t result.now ≡ first_of_rows left (seen_rows t rows.now) }
    ensures fit { (t : Ty) → values_fit t rows.now ≡ true → values_fit t result.now ≡ true }
{
    &rows[..wanted_among(left, rows.len())]
}

/// Writes the rows of a scanned block that are wanted, and counts the block and the rows.
fn write_wanted<O: Sink>(
    alloc: Global,
    dtype: &DType,
    rows: &[ScalarValue],
    output: &mut O,
    written: Written,
) -> Result<Written, Refusal>
    requires fit { values_fit (type_view dtype.now) rows.now ≡ true }
    requires few { written.scanned < 2 ^ 32 - 1 }
    ensures later { O.faults output.old ≤ O.faults output.new }
    ensures writes { WritesWanted (seen_rows (type_view dtype.now) rows.now) written (end_by O.written O.faults output.old)
        (end_by O.written O.faults output.new) result }
{
    match write_rows(alloc, dtype, wanted_rows(written.left, rows), output) {
        Ok(()) => Ok(written.behind(rows.len())),
        Err(refusal) => Err(refusal),
    }
}

/// Scans a block of which some row is wanted, and writes the rows of it that are.
fn write_block<S: ColumnStore, O: Sink>(
    alloc: Global,
    scan: &PreparedScan,
    block: u32,
    store: &mut S,
    output: &mut O,
    written: Written,
) -> Result<Written, Refusal>
    requires prepared { (f : Tree) × (p : Tree) × IsPreparedScan (S.seen store.old).zones [] f p scan.now }
    requires block { block < length (S.seen store.old).zones.lengths }
    requires wanted { wants_none written.left ≡ false }
    requires few { written.scanned < 2 ^ 32 - 1 }
    ensures moves { S.moves store.old store.new }
    ensures goes { Goes (S.seen store.old) (S.seen store.new) (end_by O.written O.faults output.old) (end_by O.written O.faults output.new) }
    ensures cause { CountsFault result (S.seen store.old) (S.seen store.new) (end_by O.written O.faults output.old) (end_by O.written O.faults output.new) }
    ensures scanned { IfOk result (λ now. now.scanned ≤ written.scanned + 1) }
    ensures turn { (f p : Tree) → IsPreparedScan (S.seen store.old).zones [] f p scan.now → WhereTold (S.seen store.old).held
        (TakesTurn f p false block written (S.seen store.old) (S.seen store.new) (end_by O.written O.faults output.old)
        (end_by O.written O.faults output.new) result) }
{
    match rows_of_block(alloc, scan, block, store) {
        Ok(rows) => write_wanted(alloc, scan.dtype(), rows.as_slice(), output, written),
        Err(refusal) => Err(refusal),
    }
}

/// The turn of a block: where it is ruled out, and where no more rows are wanted, it isn't read.
fn write_or_skip<S: ColumnStore, O: Sink>(
    alloc: Global,
    scan: &PreparedScan,
    block: u32,
    is_out: bool,
    store: &mut S,
    output: &mut O,
    written: Written,
) -> Result<Written, Refusal>
    requires prepared { (f : Tree) × (p : Tree) × IsPreparedScan (S.seen store.old).zones [] f p scan.now }
    requires block { block < length (S.seen store.old).zones.lengths }
    requires few { written.scanned < 2 ^ 32 - 1 }
    ensures moves { S.moves store.old store.new }
    ensures goes { Goes (S.seen store.old) (S.seen store.new) (end_by O.written O.faults output.old) (end_by O.written O.faults output.new) }
    ensures cause { CountsFault result (S.seen store.old) (S.seen store.new) (end_by O.written O.faults output.old) (end_by O.written O.faults output.new) }
    ensures scanned { IfOk result (λ now. now.scanned ≤ written.scanned + 1) }
    ensures turn { (f p : Tree) → IsPreparedScan (S.seen store.old).zones [] f p scan.now → WhereTold (S.seen store.old).held
        (TakesTurn f p is_out block written (S.seen store.old) (S.seen store.new) (end_by O.written O.faults output.old)
        (end_by O.written O.faults output.new) result) }
{
    if is_out {
        return Ok(written);
    }
    if wants_none(written.left) {
        return Ok(written);
    }
    write_block(alloc, scan, block, store, output, written)
}

/// How many blocks a table with these zones has. All of them have fewer than 2^64 rows.
pub(crate) fn number_of_blocks(zones: &ZoneMap) -> u32
    ensures number { result ≡ length zones.now.lengths }
    ensures rows { sum zones.now.lengths < 2 ^ 64 }
{
    number_of(zones.lengths())
}

/// How many lengths these are.
fn number_of(lengths: &[u32]) -> u32
    requires { length lengths.now < 2 ^ 32 }
    ensures number { result ≡ length lengths.now }
    ensures rows { sum lengths.now < 2 ^ 64 }
{
    lengths.len() as u32
}

/// Scans the blocks that the filter doesn't rule out, in order, until as many rows are written as are wanted.
fn write_blocks<S: ColumnStore, O: Sink>(
    alloc: Global,
    scan: &PreparedScan,
    flags: &[bool],
    limit: Option<u64>,
    store: &mut S,
    output: &mut O,
) -> Result<Found, Refusal>
    requires ruled { (f : Tree) × (p : Tree) × IsRuledScan (S.seen store.old).zones [] f p scan.now flags.now }
    ensures moves { S.moves store.old store.new }
    ensures goes { Goes (S.seen store.old) (S.seen store.new) (end_by O.written O.faults output.old) (end_by O.written O.faults output.new) }
    ensures cause { CountsFault result (S.seen store.old) (S.seen store.new) (end_by O.written O.faults output.old) (end_by O.written O.faults output.new) }
    ensures few { sum (S.seen store.old).zones.lengths < 2 ^ 64 }
    ensures agrees { WhereTold (S.seen store.old).held (AgreesWith (S.seen store.old).zones) }
    ensures runs { (f p : Tree) → IsRuledScan (S.seen store.old).zones [] f p scan.now flags.now → WhereTold (S.seen store.old).held
        (RunsToEnd f p limit (S.seen store.old) (S.seen store.new) (end_by O.written O.faults output.old) (end_by O.written O.faults output.new) result) }
{
    let blocks = number_of_blocks(store.zones());
    let mut written = Written {
        rows: 0,
        scanned: 0,
        left: limit,
    };
    for block in 0..blocks {
        let is_out = flags[block as usize];
        written = write_or_skip(alloc, scan, block, is_out, store, output, written)?;
    }
    Ok(Found {
        blocks,
        skipped: blocks - written.scanned,
        rows: written.rows,
    })
}

/// Writes the rows at which a filter is true, with what the projection means there, in the table's order: all, or the first so many. The filter and the
/// projection are strictly typed over the table's rows, the filter a boolean.
///
/// A block's rows are written before the next block is read. A block is skipped where the statistics rule the filter out, and where as many rows were
/// written before it as are wanted. Overflow, BadCast and StoreFault come as in [`vx_scan::scan_exprs`]; the rows of the blocks before stand written then.
/// NoMemory and Unwritten come at any time, after first bytes of the rows.
pub(crate) fn write_in_order<S: ColumnStore, O: Sink>(
    alloc: Global,
    filter: &ExprRef,
    projection: &ExprRef,
    limit: Option<u64>,
    store: &mut S,
    output: &mut O,
) -> Result<Found, Refusal>
    requires typed { (ty : Ty) × (scan_type (row_type (S.seen store.old).zones.columns) [] filter.now projection.now ≡ Ok ty) }
    ensures same { IsSameStore (S.seen store.old) (S.seen store.new) }
    ensures moves { S.moves store.old store.new }
    ensures later { O.faults output.old ≤ O.faults output.new }
    ensures finds { FindsInOrder filter.now projection.now limit (S.seen store.old) (S.seen store.new)
        (end_by O.written O.faults output.old) (end_by O.written O.faults output.new) result }
{
    let slots: [Option<Scalar>; 0] = [];
    match prepare_scan(alloc, filter, projection, &slots, store.zones()) {
        Ok(scan) => write_prepared(alloc, &scan, filter, limit, store, output),
        Err(error) => Err(scan_refusal(error)),
    }
}

/// The same for a scan that is ready.
fn write_prepared<S: ColumnStore, O: Sink>(
    alloc: Global,
    scan: &PreparedScan,
    filter: &ExprRef,
    limit: Option<u64>,
    store: &mut S,
    output: &mut O,
) -> Result<Found, Refusal>
    requires prepared { (p : Tree) × IsPreparedScan (S.seen store.old).zones [] filter.now p scan.now }
    ensures same { IsSameStore (S.seen store.old) (S.seen store.new) }
    ensures moves { S.moves store.old store.new }
    ensures later { O.faults output.old ≤ O.faults output.new }
    ensures finds { (p : Tree) → IsPreparedScan (S.seen store.old).zones [] filter.now p scan.now →
        FindsInOrder filter.now p limit (S.seen store.old) (S.seen store.new) (end_by O.written O.faults output.old)
        (end_by O.written O.faults output.new) result }
{
    let slots: [Option<Scalar>; 0] = [];
    match ruled_out(alloc, store.zones(), filter, &slots) {
        Ok(flags) => write_blocks(alloc, scan, flags.as_slice(), limit, store, output),
        Err(NoMemory) => Err(Refusal::NoMemory),
    }
}
