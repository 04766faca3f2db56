// What the exit status of a run tells of the arguments `scan built`.
ghost use Rattle.std.specs.Prelude.{◌≡◌, Option, Some, Ok};
ghost use Rattle.vx_dtype.specs.Types.{Bytes};
ghost use Rattle.vx_semantics.specs.Honest.{IsHonest};
ghost use Rattle.vx_io.specs.Ends.{Added};
ghost use Rattle.vx_request.specs.Requests.{RequestedScan, request_of};
ghost use Rattle.vx_scan.specs.Stores.{StoreSeen};
ghost use Rattle.vx_query.specs.Causes.{IsReported, TellsScan, whole_report};
ghost use Rattle.vx_query.specs.Running.{End, IsRun, built, scan_by, scan_form, scan_table};

use crate::causes::wire_laws;
use vx_laws_scan::kept_rows_are_all;
use vx_laws_stats::built_statistics_are_honest;

/// The statistics by which `scan built` goes are honest for the request's table, whatever the request gives, and the table stays. So
/// a report of it that was written tells all rows: what the projection means at exactly the rows at which the filter means true, in
/// the table's order. So it is also of the scan that the bytes of the source hold, where they are told.
pub fn built_reports_are_whole()
    ensures table { (input : Bytes) (a : RequestedScan) → request_of input ≡ Ok a → scan_table (scan_by built a) ≡ scan_table a }
    ensures honest { (input : Bytes) (a : RequestedScan) → request_of input ≡ Ok a → IsHonest (scan_by built a).zones (scan_table a) }
    ensures reported { (i i' o o' : End) (used : Option StoreSeen) (report : IsReported built i i' o o' used) →
        Added o.bytes o'.bytes (whole_report (scan_by built report.asked) report.filter report.projection) }
    ensures told { (i i' o o' : End) (used : Option StoreSeen) (told : TellsScan i) → IsRun (Some (scan_form built)) i i' o o' used 0 →
        Added o.bytes o'.bytes (whole_report (scan_by built told.asked) told.filter told.projection) }
{
    wire_laws();
    kept_rows_are_all();
    built_statistics_are_honest();
}
