// What the exit status of a run tells of the arguments `scan file`.
ghost use Rattle.std.specs.Prelude.{◌≡◌, ◌⊎◌, ℕ, [], ◌++◌, codes, true, Option, Some};
ghost use Rattle.vx_expr.specs.Trees.{Tree};
ghost use Rattle.vx_semantics.specs.Breaks.{Cause};
ghost use Rattle.vx_semantics.specs.Honest.{IsHonest};
ghost use Rattle.vx_semantics.specs.Scans.{some_phase_breaks};
ghost use Rattle.vx_io.specs.Ends.{Added};
ghost use Rattle.vx_laws_file.specs.FileForms.{content_of, file_bytes};
ghost use Rattle.vx_laws_file.specs.HeldTables.{held_table};
ghost use Rattle.vx_laws_file.specs.Lengths.{HasFile};
ghost use Rattle.vx_laws_file.specs.Opening.{IsOpened};
ghost use Rattle.vx_scan.specs.Stores.{StoreSeen};
ghost use Rattle.vx_scan.specs.declared.errors.ScanError.{ScanError};
ghost use Rattle.vx_request.specs.Requests.{RequestedScan};
ghost use Rattle.vx_request.specs.FileRequests.{RequestedFile};
ghost use Rattle.vx_request.specs.declared.errors.FilePlace.{FilePlace};
ghost use Rattle.vx_request.specs.declared.errors.FileText.{FileText};
ghost use Rattle.vx_file_query.specs.FileEndings.{HoldsBadFile, HoldsFileRefused, BreaksFileBy, IsFileWhole, MeetsNoDamage};
ghost use Rattle.vx_file_query.specs.declared.errors.FilePart.{FilePart};
ghost use Rattle.vx_query.specs.Causes.{HasRisen, whole_report};
ghost use Rattle.vx_query.specs.Exactly.{EndsWith, RequestsEndSo, RunsWell, Tells};
ghost use Rattle.vx_query.specs.FileScanCauses.{IsFileReported, IsMisasked, IsMisfiled, IsUnscannedFile, HasFileBroken, IsStoppedFile, TellsFileScan};
ghost use Rattle.vx_query.specs.FileScanCauses.{told_file_report, IsMisformedFile, HasBadFileHex};
ghost use Rattle.vx_query.specs.Refusals.{bad_file_name, break_name, file_place_name, file_text_name, refusal_line, scan_refusal_name};
ghost use Rattle.vx_query.specs.RequestCauses.{IsTooLong, IsNoJson};
ghost use Rattle.vx_query.specs.Running.{End, IsRun, held_scan, scan_file_form, scans_file};

use vx_laws_file::written_is_opened;
use vx_laws_scan::kept_rows_are_all;

/// What is written of `scan file` is settled by the bytes of the source. 0 means that the input was taken, that it asks the scan of a block file by two byte
/// texts that spell expressions which are strictly typed for the file's table, the filter a boolean, that none of the columns that are read is damaged and
/// no phase breaks, and that the report of the scan of this table was written whole. Where the source's bytes are told and ask a scan, the report is of
/// this one. And where there is memory, and no end counts a fault, a run over bytes that ask a scan in which no column that is read is damaged and no phase
/// breaks ends with 0 and its report.
pub fn file_scans_are_of_the_request()
    ensures reported { (i i' o o' : End) (used : Option StoreSeen) → IsRun (Some scan_file_form) i i' o o' used 0 → IsFileReported i i' o o' used }
    ensures told { (i i' o o' : End) (used : Option StoreSeen) (told : TellsFileScan i) → IsRun (Some scan_file_form) i i' o o' used 0
        → Added o.bytes o'.bytes (told_file_report told) }
    ensures complete { (i i' o o' : End) (used : Option StoreSeen) (status : ℕ) (told : TellsFileScan i)
        → IsFileWhole told.content told.filter told.projection → RunsWell (Some scan_file_form) i i' o o' used status → ¬ (HasRisen i i')
        → EndsWith 0 (told_file_report told) o o' status }
{}

/// 3 of `scan file` means that the input was taken and that the line of its one cause was written: it is no request of a block file, or a part of the file
/// isn't as it has to be; 4 that the expressions are refused. No store is held then.
pub fn refused_file_scans_have_their_causes()
    ensures refused { (i i' o o' : End) (used : Option StoreSeen) → IsRun (Some scan_file_form) i i' o o' used 3
        → IsMisasked i i' o o' used ⊎ IsMisfiled i i' o o' used }
    ensures unscanned { (i i' o o' : End) (used : Option StoreSeen) → IsRun (Some scan_file_form) i i' o o' used 4 → IsUnscannedFile i i' o o' used }
{}

/// Of `scan file` InputTooLong is told exactly where 16,777,217 bytes were taken of the input; BadJson exactly where an input that isn't too long is no text
/// of JSON; BadRequest with a place exactly where the value of the input isn't of the form of a request of a block file there, and is before; and BadHex
/// with a text's name exactly where this is no hexadecimal text, and those before it are.
pub fn file_requests_are_refused_exactly()
    ensures too_long { RequestsEndSo scans_file 3 (codes "InputTooLong") IsTooLong }
    ensures no_json { RequestsEndSo scans_file 3 (codes "BadJson") IsNoJson }
    ensures misformed { (place : FilePlace) → RequestsEndSo scans_file 3 (codes "BadRequest " ++ file_place_name place) (IsMisformedFile place) }
    ensures bad_hex { (which : FileText) → RequestsEndSo scans_file 3 (codes "BadHex " ++ file_text_name which) (HasBadFileHex which) }
{}

/// BadFile is told with `magic`, `header`, `zones` or `end` exactly where the bytes that are to be scanned are no block file for that reason; and with
/// `column` exactly where they are one, the expressions are not refused, and a read of the scan over the table that the file holds, up to the end of the
/// first phase that breaks, is of a damaged pair of a block and a column.
pub fn bad_files_are_refused_exactly()
    ensures { (part : FilePart) → RequestsEndSo scans_file 3 (bad_file_name part) (HoldsBadFile part) }
{}

/// What the expressions of the scan of a block file are refused for is told exactly where they are, and the bytes are a block file: of the filter's text,
/// of the projection's, of the filter's typing and of the projection's, the first in this order.
pub fn file_expressions_are_refused_exactly()
    ensures { (refusal : ScanError) → RequestsEndSo scans_file 4 (scan_refusal_name refusal) (HoldsFileRefused refusal) }
{}

/// 5 of `scan file` means that the input asks a scan of which a phase breaks before a damaged column is read, and that the line of a cause was written by
/// which the first phase that breaks does so. Where the sink tells the line, this is its cause. And a run over a source that tells its bytes, which ask
/// a scan some phase of which so breaks, ends so where there is memory and no end counts a fault.
pub fn file_scans_break_exactly()
    ensures only { (i i' o o' : End) (used : Option StoreSeen) → IsRun (Some scan_file_form) i i' o o' used 5 → IsStoppedFile i i' o o' used }
    ensures told { (cause : Cause) (i i' o o' : End) (used : Option StoreSeen)
        → Tells (Some scan_file_form) i i' o o' used 5 (refusal_line (break_name cause)) → HasFileBroken cause i i' }
    ensures always { (i i' o o' : End) (used : Option StoreSeen) (status : ℕ) (told : TellsFileScan i)
        → MeetsNoDamage told.content told.filter told.projection
        → some_phase_breaks (held_table told.content) told.content.zones [] told.filter told.projection ≡ true
        → RunsWell (Some scan_file_form) i i' o o' used status → ¬ (HasRisen i i')
        → (cause : Cause) × BreaksFileBy cause told.content told.filter told.projection × EndsWith 5 (refusal_line (break_name cause)) o o' status }
{}

/// Where the statistics of a block file are honest for the table that it holds, a report of `scan file` that was written tells all rows: what the projection
/// means at exactly the rows at which the filter means true, in the table's order. So it is also of the scan that the bytes of the source ask, where they
/// are told.
pub fn honest_file_reports_are_whole()
    ensures reported { (i i' o o' : End) (used : Option StoreSeen) (report : IsFileReported i i' o o' used)
        → IsHonest report.content.zones (held_table report.content)
        → Added o.bytes o'.bytes (whole_report (held_scan report.asked report.content) report.filter report.projection) }
    ensures told { (i i' o o' : End) (used : Option StoreSeen) (told : TellsFileScan i) → IsRun (Some scan_file_form) i i' o o' used 0
        → IsHonest told.content.zones (held_table told.content)
        → Added o.bytes o'.bytes (whole_report (held_scan told.asked told.content) told.filter told.projection) }
{
    kept_rows_are_all();
}

/// The block file that is written of a request's table, by `file`, is scanned as this table: it is opened, the scan over what it holds is that of the
/// request, and none of its columns is damaged.
pub fn written_files_are_scanned_as_their_tables()
    ensures opened { (a : RequestedScan) (r : RequestedFile) → HasFile a.zones a.blocks → r.file ≡ file_bytes a.zones a.blocks
        → IsOpened r.file (content_of a.zones a.blocks) }
    ensures same { (a : RequestedScan) (r : RequestedFile) → HasFile a.zones a.blocks → r.filter ≡ a.filter → r.projection ≡ a.projection
        → held_scan r (content_of a.zones a.blocks) ≡ a }
    ensures undamaged { (a : RequestedScan) (filter projection : Tree) → HasFile a.zones a.blocks
        → MeetsNoDamage (content_of a.zones a.blocks) filter projection }
{
    written_is_opened();
}
