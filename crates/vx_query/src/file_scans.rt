// The report of the scan of the block file that an input asks.
ghost use Rattle.std.specs.Prelude.{◌≡◌, true, length, map, IfOk};
ghost use Rattle.std.specs.String.{string_bytes};
ghost use Rattle.vx_dtype.specs.TypeViews.{type_view};
ghost use Rattle.vx_column.specs.Columns.{raws_fit};
ghost use Rattle.vx_display.specs.ValueTexts.{value_text};
ghost use Rattle.vx_scan.specs.Reports.{report_view};
ghost use Rattle.vx_query.specs.EndingViews.{columns_read};
ghost use Rattle.vx_query.specs.Reports.{report_text};
ghost use Rattle.vx_query.specs.TextViews.{ReportsFile};

use crate::answers::report_of;
use crate::refusals::Refusal;
use std::alloc::Global;
use vx_dtype::Mem;
use vx_file_query::{ScannedFile, scan_requested_file};
use vx_scan::ColumnStore;

/// The report of the scan of the block file that an input asks, or the one cause that there is none.
pub(crate) fn file_report(alloc: Global, input: &[u8]) -> Result<String, Refusal>
    ensures { ReportsFile input.now result }
{
    let scanned = scan_requested_file(alloc, input)?;
    let text = scanned_text(alloc, &scanned)?;
    Ok(text)
}

/// The text of the report of a block file that was scanned.
fn scanned_text(alloc: Global, scanned: &ScannedFile) -> Mem<String>
    requires { raws_fit (type_view scanned.now.report.dtype) scanned.now.report.rows ≡ true }
    ensures { IfOk result (λ text. string_bytes text ≡ report_text (map value_text (report_view scanned.now.report).rows) scanned.now.report.skipped
        (columns_read scanned.now.file.header.zones scanned.now.file.reads) (length scanned.now.file.reads)) }
{
    let report = &scanned.report;
    let file = &scanned.file;
    report_of(
        alloc,
        &report.dtype,
        &report.rows,
        &report.skipped,
        file.zones(),
        file.log(),
    )
}
