// Scanning a block file.
ghost use Rattle.std.specs.Prelude.{◌≡◌, true, IfOk};
ghost use Rattle.vx_dtype.specs.TypeViews.{type_view};
ghost use Rattle.vx_column.specs.Columns.{raws_fit};
ghost use Rattle.vx_wire.specs.Registries.{registered};
ghost use Rattle.vx_file_scan.specs.FileScans.{IsFileScan};
ghost use Rattle.vx_file_scan.specs.FirstFailures.{IsUnread};

use crate::first_failures::FirstFailure;
use std::alloc::Global;
use vx_file::BlockFile;
use vx_file_ranges::Ranged;
use vx_scan::{ScanError, ScanReport, scan};
use vx_wire::ExprRegistry;

/// The scan of a block file: what it answered, and the file as it was left.
#[derive(Drop)]
pub struct FileScan<R: Ranged> {
    pub answer: Result<ScanReport, ScanError>,
    pub file: BlockFile<R>,
}

/// Scans a block file that wasn't read yet by two byte texts, as [`scan`] does any store. Its bytes stay, and its source's count of faults is what it was but
/// for StoreFault, where it may have risen. No read is of a damaged pair but the last one that failed.
///
/// Where the source tells the bytes, and the texts spell expressions, StoreFault comes only where the source counted a fault in this call, or where one of
/// the reads of the scan, up to the end of the first phase that breaks, is of a damaged pair. Where one is, the answer is neither a report nor Overflow nor
/// BadCast. A damaged pair that the scan doesn't read is never met.
pub fn scan_file<R: Ranged>(
    alloc: Global,
    registry: &ExprRegistry,
    filter: &[u8],
    projection: &[u8],
    file: BlockFile<R>,
) -> FileScan<R>
    requires { IsUnread file }
    ensures scanned { IsFileScan (registered registry.now) filter.now projection.now file result.file result.answer }
    ensures fit { IfOk result.answer (λ report. raws_fit (type_view report.dtype) report.rows ≡ true) }
{
    let mut store = FirstFailure::new(file);
    let answer = scan(alloc, registry, filter, projection, &mut store);
    FileScan {
        answer,
        file: store.into_file(),
    }
}
