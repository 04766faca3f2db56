// Scans of a case's table.
ghost use Rattle.std.specs.Prelude.{◌<◌, ◌^◌, ◌-◌, All, IfOk};

use crate::errors::CaseError;
use crate::opening::requested;
use crate::tables::Case;
use crate::untold_store::UntoldStore;
use std::alloc::Global;
use vx_display::push_row;
use vx_dtype::{Mem, Scalar, WrongValue};
use vx_request::ScanRequest;
use vx_scan::{ColumnStore, MemoryStore, ReadEntry, ScanError, ScanReport, scan};
use vx_wire::{ExprRegistry, ExprRegistryExt};

/// A store of the table of a case, with the bytes of both expressions.
#[derive(Drop)]
struct Stored {
    store: MemoryStore,
    filter: Vec<u8>,
    projection: Vec<u8>,
}

/// The rows and the reads of a scan, or the refusal of its request.
pub(crate) fn scan_of(alloc: Global, case: &Case<'_>) -> Result<String, CaseError> {
    match store_case(alloc, case, None) {
        Ok(stored) => Ok(scan_text(alloc, stored)?),
        Err(CaseError::Request(error)) => Ok(format!(in alloc; "{error:?}")?),
        Err(error) => Err(error),
    }
}

/// The rows and the reads of a scan.
fn scan_text(alloc: Global, mut stored: Stored) -> Mem<String> {
    let ended = scan_stored(alloc, &mut stored);
    ended_text(alloc, &ended, stored.store.log())
}

/// The scan of a store by the expressions that stand beside it.
fn scan_stored(alloc: Global, stored: &mut Stored) -> Result<ScanReport, ScanError> {
    scanned(
        alloc,
        &mut stored.store,
        stored.filter.as_slice(),
        stored.projection.as_slice(),
    )
}

/// The same over a store that doesn't tell its table.
pub(crate) fn scan_untold(alloc: Global, case: &Case<'_>) -> Result<String, CaseError> {
    let stored = store_case(alloc, case, None)?;
    let mut store = UntoldStore::new(stored.store);
    let ended = scanned(
        alloc,
        &mut store,
        stored.filter.as_slice(),
        stored.projection.as_slice(),
    );
    Ok(ended_text(alloc, &ended, store.log())?)
}

/// How many reads a scan makes, where each of them, when it fails, is a store fault behind the reads before it.
pub(crate) fn scan_failing(alloc: Global, case: &Case<'_>) -> Result<String, CaseError> {
    let mut whole = store_case(alloc, case, None)?;
    match scan_stored(alloc, &mut whole) {
        Ok(_report) => failing_text(alloc, case, whole.store.log()),
        Err(error) => Err(CaseError::Scan(error)),
    }
}

/// How many reads there are, where each of them, when it fails, is a store fault behind the reads before it.
fn failing_text(alloc: Global, case: &Case<'_>, reads: &[ReadEntry]) -> Result<String, CaseError> {
    for i in 0..reads.len() {
        if !fails_at(alloc, case, reads, i)? {
            return Ok(format!(in alloc; "another end where read {} fails", i.saturating_add(1))?);
        }
    }
    Ok(format!(in alloc; "{} reads", reads.len())?)
}

/// Whether a scan whose read at this place fails ends by a store fault, with the reads before it and no other.
fn fails_at(
    alloc: Global,
    case: &Case<'_>,
    reads: &[ReadEntry],
    place: usize,
) -> Result<bool, CaseError> {
    let Ok(behind) = u32::try_from(place) else {
        return Ok(false);
    };
    let mut stored = store_case(alloc, case, Some(behind))?;
    Ok(is_fault(alloc, &mut stored) && has_failed_at(&stored.store, reads, place))
}

/// Whether a scan ends by a store fault.
fn is_fault(alloc: Global, stored: &mut Stored) -> bool {
    matches!(scan_stored(alloc, stored), Err(ScanError::StoreFault))
}

/// Whether a store failed once, at the read with this place, behind the reads before it.
fn has_failed_at(store: &MemoryStore, reads: &[ReadEntry], place: usize) -> bool {
    let is_logged = Some(store.log()) == reads.get(..place);
    let is_failed = store.failed() == reads.get(place);
    is_logged && is_failed && store.faults() == 1
}

/// The table of a case as a store that fails at the read behind so many others, or at none.
fn store_case(
    alloc: Global,
    case: &Case<'_>,
    fails_behind: Option<u32>,
) -> Result<Stored, CaseError> {
    let ScanRequest {
        zones,
        blocks,
        filter,
        projection,
    } = requested(alloc, case)?;
    match MemoryStore::try_new(alloc, zones, blocks, numbers_of(alloc, fails_behind)?) {
        Ok(store) => Ok(Stored {
            store,
            filter,
            projection,
        }),
        Err(error) => Err(CaseError::Table(error)),
    }
}

/// The number, from 1, of the read behind so many others, where one is given.
fn numbers_of(alloc: Global, behind: Option<u32>) -> Mem<Vec<u64>>
    ensures { IfOk result (λ numbers. All (λ n. n < 2 ^ 64 - 1) numbers.items) }
{
    match behind {
        Some(behind) => Ok(vec![in alloc; behind as u64 + 1]?),
        None => Ok(Vec::new(alloc)),
    }
}

/// The scan of a store by the default kinds of expressions.
fn scanned<S: ColumnStore>(
    alloc: Global,
    store: &mut S,
    filter: &[u8],
    projection: &[u8],
) -> Result<ScanReport, ScanError> {
    let registry = ExprRegistry::default();
    scan(alloc, &registry, filter, projection, store)
}

/// The rows, the skipped blocks and the reads of a scan, or its refusal and the reads.
fn ended_text(
    alloc: Global,
    ended: &Result<ScanReport, ScanError>,
    reads: &[ReadEntry],
) -> Mem<String> {
    let mut text = match ended {
        Ok(report) => report_text(alloc, report)?,
        Err(error) => format!(in alloc; "{error:?}")?,
    };
    text.push_str(" / reads")?;
    for read in reads {
        text.push_str(format!(in alloc; " {} {}", read.block, read.name)?.as_str())?;
    }
    Ok(text)
}

/// The rows and the skipped blocks of a report.
fn report_text(alloc: Global, report: &ScanReport) -> Mem<String> {
    let mut text = String::from_str(alloc, "rows")?;
    for row in report.rows.as_slice() {
        text.push_str(" ")?;
        push_value(
            &mut text,
            Scalar::try_new(report.dtype.clone()?, row.clone()?),
        )?;
    }
    text.push_str(" / skipped")?;
    for block in report.skipped.as_slice() {
        text.push_str(format!(in alloc; " {block}")?.as_str())?;
    }
    Ok(text)
}

/// Adds a value, or that it is none of its type.
fn push_value(text: &mut String, value: Result<Scalar, WrongValue>) -> Mem<()> {
    match &value {
        Ok(row) => push_row(text, row.dtype(), row.value()),
        Err(_) => Ok(text.push_str("no value of its type")?),
    }
}
