// Scans of the file that a source holds.
ghost use Rattle.vx_file_scan.specs.FirstFailures.{IsUnread};

use crate::errors::CaseError;
use crate::opening::{push_reads, refusal_text};
use crate::rows::{bytes_in, number_in, text_in};
use crate::sources::source_in;
use serde_json::Value;
use std::alloc::Global;
use vx_display::push_row;
use vx_dtype::{Mem, Scalar, WrongValue};
use vx_file::{BlockFile, open_file};
use vx_file_ranges::MemoryRange;
use vx_file_scan::{FileScan, scan_file};
use vx_scan::{ScanError, ScanReport};
use vx_wire::{ExprRegistry, ExprRegistryExt};

/// The answer to the call of a row, as a text.
pub(crate) fn answer(alloc: Global, row: &Value) -> Result<String, CaseError> {
    match text_in(row, "call") {
        "scan_failing" => scan_failing(alloc, row),
        _ => scanned(alloc, row, number_in(row, "fails")),
    }
}

/// The answer of a scan of the file that the source of a row holds, with the reads and the damage, where the call of a number fails.
fn scanned(alloc: Global, row: &Value, fails: u32) -> Result<String, CaseError> {
    match open_file(alloc, source_in(alloc, row, fails)?) {
        Ok(file) => scan_opened(alloc, row, file),
        Err(refused) => Ok(refusal_text(alloc, &refused)?),
    }
}

/// Whether a scan ends as it is wanted or by a read or a store fault without damage, where each of so many calls fails in turn.
fn scan_failing(alloc: Global, row: &Value) -> Result<String, CaseError> {
    let whole = scanned(alloc, row, 0)?;
    match first_other_end(alloc, row, whole.as_str())? {
        Some(other) => Ok(other),
        None => Ok(whole),
    }
}

/// The first other end, and the call that fails then, where there is one.
fn first_other_end(alloc: Global, row: &Value, whole: &str) -> Result<Option<String>, CaseError> {
    for before in 0..number_in(row, "calls") {
        if let Some(other) = other_end(alloc, row, before + 1, whole)? {
            return Ok(Some(other));
        }
    }
    Ok(None)
}

/// The end where the call of a number fails, unless it may be so.
fn other_end(
    alloc: Global,
    row: &Value,
    call: u32,
    whole: &str,
) -> Result<Option<String>, CaseError> {
    let found = scanned(alloc, row, call)?;
    if is_end(found.as_str(), whole) {
        return Ok(None);
    }
    Ok(Some(format!(in alloc; "{found} where call {call} fails")?))
}

/// Whether a scan one of whose calls fails may end so, where it ends otherwise as is told.
fn is_end(found: &str, whole: &str) -> bool {
    if found == whole {
        return true;
    }
    if found == "ReadFault, faults 1" {
        return true;
    }
    found.starts_with("StoreFault / ") && found.ends_with(" / damage")
}

/// The answer of a scan of a file by the expressions of a row, with the reads and the damage.
fn scan_opened(
    alloc: Global,
    row: &Value,
    file: BlockFile<MemoryRange>,
) -> Result<String, CaseError>
    requires { IsUnread file }
{
    let filter = bytes_in(alloc, row, "filter")?;
    let projection = bytes_in(alloc, row, "projection")?;
    let scan = scan_by(alloc, filter.as_slice(), projection.as_slice(), file);
    Ok(scan_text(alloc, &scan)?)
}

/// The scan of a file by the default kinds of expressions.
fn scan_by(
    alloc: Global,
    filter: &[u8],
    projection: &[u8],
    file: BlockFile<MemoryRange>,
) -> FileScan<MemoryRange>
    requires { IsUnread file }
{
    let registry = ExprRegistry::default();
    scan_file(alloc, &registry, filter, projection, file)
}

/// The rows and the skipped blocks of a scan, or its refusal, with the reads and the damage.
fn scan_text(alloc: Global, scan: &FileScan<MemoryRange>) -> Mem<String> {
    let mut text = answer_text(alloc, &scan.answer)?;
    text.push_str(" / ")?;
    push_reads(alloc, &mut text, &scan.file)?;
    Ok(text)
}

/// The rows and the skipped blocks of a report, or why there is none.
fn answer_text(alloc: Global, answer: &Result<ScanReport, ScanError>) -> Mem<String> {
    match answer {
        Ok(report) => report_text(alloc, report),
        Err(error) => Ok(format!(in alloc; "{error:?}")?),
    }
}

/// The rows and the skipped blocks of a report.
fn report_text(alloc: Global, report: &ScanReport) -> Mem<String> {
    let mut text = String::from_str(alloc, "rows")?;
    for row in report.rows.as_slice() {
        text.push_str(" ")?;
        push_value(
            &mut text,
            Scalar::try_new(report.dtype.clone()?, row.clone()?),
        )?;
    }
    text.push_str(" / skipped")?;
    for block in report.skipped.as_slice() {
        text.push_str(format!(in alloc; " {block}")?.as_str())?;
    }
    Ok(text)
}

/// Adds a value, or that it is none of its type.
fn push_value(text: &mut String, value: Result<Scalar, WrongValue>) -> Mem<()> {
    match &value {
        Ok(row) => push_row(text, row.dtype(), row.value()),
        Err(_) => Ok(text.push_str("no value of its type")?),
    }
}
