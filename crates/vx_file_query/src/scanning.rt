// The scan of a block file that an input holds.
ghost use Rattle.std.specs.Prelude.{◌≡◌, ◌≢◌, true, Err, IfOk, IfErr};
ghost use Rattle.vx_dtype.specs.Types.{Bytes};
ghost use Rattle.vx_dtype.specs.TypeViews.{type_view};
ghost use Rattle.vx_column.specs.Columns.{raws_fit};
ghost use Rattle.vx_request.specs.FileRequests.{RequestedFile};
ghost use Rattle.vx_scan.specs.Reports.{report_view};
ghost use Rattle.vx_file_open.specs.declared.errors.FileError.TheVariants as opens;
ghost use Rattle.vx_file_query.specs.FileAnswers.{IsFileReport, IsFileUnreported, IsReady, AsksFile, IsUnopened, IsOpenError, scan_error};

use crate::errors::{FilePart, FileScanError};
use crate::file_bytes::FileBytes;
use std::alloc::Global;
use vx_file::{BlockFile, FileError, open_file};
use vx_file_scan::{FileScan, scan_file};
use vx_request::{FileRequest, decode_file_request};
use vx_scan::{ScanError, ScanReport};
use vx_wire::{ExprRegistry, ExprRegistryExt};

/// The report of the scan of a block file, and the file as it was left, with its reads.
#[derive(Drop)]
pub struct ScannedFile {
    pub report: ScanReport,
    pub file: BlockFile<FileBytes>,
}

/// The scan of the block file that an input holds as a request, by the two byte texts of the request, or the first reason why it has no report: the input is
/// no request; the bytes are no block file; the texts spell no expressions; these aren't strictly typed for the file's table, the filter a boolean; a
/// column that is read is damaged, or a phase breaks. Up to the end of the first phase that breaks a damaged column comes before the break. The rows fit
/// the report's type.
pub fn scan_requested_file(alloc: Global, input: &[u8]) -> Result<ScannedFile, FileScanError>
    ensures reported { IfOk result (λ scanned. IsFileReport input.now (report_view scanned.report) scanned.file) }
    ensures fit { IfOk result (λ scanned. raws_fit (type_view scanned.report.dtype) scanned.report.rows ≡ true) }
    ensures refused { IfErr result (IsFileUnreported input.now) }
{
    let request = decode_file_request(alloc, input)?;
    let FileRequest {
        file,
        filter,
        projection,
    } = request;
    let opened = opened_file(alloc, file)?;
    scan_opened(alloc, filter.as_slice(), projection.as_slice(), opened)
}

/// The block file that bytes are, or why they are none.
fn opened_file(alloc: Global, bytes: Vec<u8>) -> Result<BlockFile<FileBytes>, FileScanError>
    ensures opened { IfOk result (IsReady bytes.items) }
    ensures refused { IfErr result (IsUnopened bytes.items) }
{
    match open_file(alloc, FileBytes::new(bytes)) {
        Ok(file) => Ok(file),
        Err(refused) => Err(unopened(refused.error)),
    }
}

/// Why bytes of which no read fails aren't opened.
fn unopened(error: FileError) -> FileScanError
    requires { error ≢ opens.ReadFault }
    ensures { IsOpenError error result }
{
    match error {
        FileError::NoMemory => FileScanError::NoMemory,
        FileError::ReadFault => unreachable!(),
        FileError::BadMagic => FileScanError::BadFile(FilePart::Magic),
        FileError::BadHeader => FileScanError::BadFile(FilePart::Header),
        FileError::BadZones(_) => FileScanError::BadFile(FilePart::Zones),
        FileError::BadEnd => FileScanError::BadFile(FilePart::End),
    }
}

/// The scan of a file that was opened and not read yet. Its source counts no fault, so that a read which fails is of a damaged column.
fn scan_opened(
    alloc: Global,
    filter: &[u8],
    projection: &[u8],
    file: BlockFile<FileBytes>,
) -> Result<ScannedFile, FileScanError>
    requires { (bytes : Bytes) × IsReady bytes file }
    ensures reported { (input : Bytes) (a : RequestedFile) → AsksFile input a filter.now projection.now file
        → IfOk result (λ scanned. IsFileReport input (report_view scanned.report) scanned.file) }
    ensures fit { IfOk result (λ scanned. raws_fit (type_view scanned.report.dtype) scanned.report.rows ≡ true) }
    ensures refused { (input : Bytes) (a : RequestedFile) → AsksFile input a filter.now projection.now file → IfErr result (IsFileUnreported input) }
{
    let registry = ExprRegistry::default();
    let FileScan { answer, file } = scan_file(alloc, &registry, filter, projection, file);
    let _ = file.source();
    match answer {
        Ok(report) => Ok(ScannedFile { report, file }),
        Err(error) => Err(unscanned(error)),
    }
}

/// What becomes of a scan without a report.
fn unscanned(error: ScanError) -> FileScanError
    ensures { result ≡ scan_error error }
{
    match error {
        ScanError::NoMemory => FileScanError::NoMemory,
        ScanError::StoreFault => FileScanError::BadFile(FilePart::Column),
        error => FileScanError::Scan(error),
    }
}
