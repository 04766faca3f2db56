// What the exit status of a run tells.
ghost use Rattle.std.specs.Prelude.{◌≡◌, ℕ, ◌<◌, ◌-◌, ◌^◌, true, false, Option, Some, None};
ghost use Rattle.vx_dtype.specs.Types.{Bytes};
ghost use Rattle.vx_expr.specs.Trees.{Tree};
ghost use Rattle.vx_semantics.specs.Breaks.{Cause};
ghost use Rattle.vx_semantics.specs.Honest.{IsHonest};
ghost use Rattle.vx_io.specs.Ends.{Added};
ghost use Rattle.vx_scan.specs.Stores.{StoreSeen};
ghost use Rattle.vx_explain.specs.Explanations.{explain_text};
ghost use Rattle.vx_laws_generated.specs.GeneratedLine.{gen_line};
ghost use Rattle.vx_query.specs.Causes.{HasRisen, IsReported, IsUnasked, IsUnscanned, IsStopped, HasBroken, HasAskedReads, IsCut, IsUnread, IsWithoutMemory};
ghost use Rattle.vx_query.specs.Causes.{TellsScan};
ghost use Rattle.vx_query.specs.Causes.{told_breaks, told_breaks_by, whole_report};
ghost use Rattle.vx_query.specs.Exactly.{Tells, RunsWell, EndsWith};
ghost use Rattle.vx_query.specs.Refusals.{refusal_line, break_name};
ghost use Rattle.vx_query.specs.WireLaws.{WireLaws};
ghost use Rattle.vx_query.specs.Running.{End, Form, IsRun, asked_top, reads_request, scans_file, scan_by, scan_table, scan_report, scanned_store, broken_store, bytes_line};
ghost use Rattle.vx_query.specs.Running.{Showing, Statistics, given, scan_form, explain_form, show_form, text_form, gen_form};
ghost use Rattle.vx_query.specs.Running.{shown_text, uses_expressions, WordSpells, Names, HasBytes};

use vx_laws_scan::{kept_numbers_are_kept_blocks, kept_rows_are_all};
use vx_wire::{one_expression, one_tree};

/// 3 and 4 of `scan`, `scan built` and `explain` mean that the input was taken and that the line of its one cause was written: it is no
/// request; the expressions of its scan are refused. No store is held then. Which refusal a line tells is said by the laws of
/// `refusal_causes`. 3 of `top` means the same; what 4 of it means is said by `refused_searches_have_their_causes`, what 3 of `file`
/// does by `refused_files_have_their_causes`, and what 3 and 4 of `scan file` do by `refused_file_scans_have_their_causes`.
pub fn statuses_have_their_causes()
    ensures refused { (form : Option Form) (i i' o o' : End) (used : Option StoreSeen) → uses_expressions form ≡ true → IsRun form i i' o o' used 3
        → IsUnasked i i' o o' used }
    ensures unscanned { (form : Option Form) (i i' o o' : End) (used : Option StoreSeen) → reads_request form ≡ true → asked_top form ≡ None
        → IsRun form i i' o o' used 4 → IsUnscanned i i' o o' used }
{}

/// 5 of other arguments than `top` and `scan file` means that they are `scan` or `scan built`, that the input holds a scan of which a phase breaks by the statistics
/// of these arguments, that the line of a cause was written by which the first phase that breaks does so, and that the store is
/// held with the reads up to there. Where the sink tells the line, this is its cause. And a run of `scan` or `scan built` over a
/// source that tells its bytes, which hold a scan some phase of which so breaks, ends so where there is memory and no end counts
/// a fault. Of `top` `searches_break_exactly` says the same, and of `scan file` `file_scans_break_exactly`.
pub fn breaks_exactly()
    ensures only { (form : Option Form) (i i' o o' : End) (used : Option StoreSeen) → asked_top form ≡ None → scans_file form ≡ false
        → IsRun form i i' o o' used 5 → IsStopped form i i' o o' used }
    ensures told { (cause : Cause) (form : Option Form) (i i' o o' : End) (used : Option StoreSeen) → asked_top form ≡ None → scans_file form ≡ false
        → Tells form i i' o o' used 5 (refusal_line (break_name cause)) → HasBroken cause form i i' }
    ensures always { (s : Statistics) (i i' o o' : End) (used : Option StoreSeen) (status : ℕ) (told : TellsScan i) → told_breaks s told ≡ true
        → RunsWell (Some (scan_form s)) i i' o o' used status → ¬ (HasRisen i i')
        → ((cause : Cause) × (told_breaks_by cause s told ≡ true) × EndsWith 5 (refusal_line (break_name cause)) o o' status)
        × (used ≡ Some (broken_store (scan_by s told.asked) told.filter told.projection)) }
{
    wire_laws();
}

/// 6 comes only of arguments that read an input, where the source counted a fault: a first part of the input was taken, the
/// line of ReadFault was written whole, and no store is held. And where the source counted one, and the sink none, a run ends
/// so, as long as the count isn't at its last value.
pub fn read_faults_are_counted()
    ensures only { (form : Option Form) (i i' o o' : End) (used : Option StoreSeen) → IsRun form i i' o o' used 6 → IsUnread form i i' o o' used }
    ensures always { (form : Option Form) (i i' o o' : End) (used : Option StoreSeen) (status : ℕ) → i.faults < 2 ^ 64 - 1 → HasRisen i i'
        → ¬ (HasRisen o o') → IsRun form i i' o o' used status → status ≡ 6 }
{}

/// 7 comes only where the sink counted a fault; what was written then is a first part of the text in which the run was to end,
/// and what was taken and which store is held are as that end says.
pub fn write_faults_are_counted()
    ensures { (form : Option Form) (i i' o o' : End) (used : Option StoreSeen) → IsRun form i i' o o' used 7 → IsCut form i i' o o' used }
{}

/// 8 comes only with the line of NoMemory written whole: no read of the input failed, and no store is held.
pub fn want_of_memory_is_told()
    ensures { (form : Option Form) (i i' o o' : End) (used : Option StoreSeen) → IsRun form i i' o o' used 8 → IsWithoutMemory form i i' o o' used }
{}

/// 0 of `scan` and of `scan built` means that the input was taken, that it is a request whose two byte texts spell expressions
/// that are strictly typed for its table, the filter a boolean, that no phase of their scan by the statistics of these arguments
/// breaks, and that its report was written whole.
pub fn reports_are_typed()
    ensures { (s : Statistics) (i i' o o' : End) (used : Option StoreSeen) → IsRun (Some (scan_form s)) i i' o o' used 0 → IsReported s i i' o o' used }
{}

/// The store that is held after `scan` or `scan built` has just the reads of the scan that the arguments and the input ask, up to the end of its
/// first phase that breaks where one does: each is of a block that its statistics don't rule out, and of a column that the filter asks or, where
/// this means true at some row of the block, the projection; and none stands twice. Of `top` `searches_ask_their_reads` says which reads it has.
pub fn reads_are_asked()
    ensures { (form : Option Form) (i i' o o' : End) (store : StoreSeen) (status : ℕ) → reads_request form ≡ true → asked_top form ≡ None
        → IsRun form i i' o o' (Some store) status → HasAskedReads form i i' store }
{
    kept_numbers_are_kept_blocks();
}

/// Where there is memory, and no end counts a fault, a run of `scan` or `scan built` over a source that tells its bytes, which
/// hold a scan no phase of which breaks by the statistics of these arguments, ends with 0 and the report of this scan; one of
/// `explain` over bytes that hold a scan with 0 and its explanation; and one that shows a word whose bytes spell an expression
/// with 0 and the expression's line, tree or query. One that asks the bytes of a query ends with 0 and the bytes of the expression
/// that the query names, where this has any; and one of `gen` with 0 and the line of its table, whatever the number of rows.
pub fn answers_are_complete()
    ensures scan { (s : Statistics) (i i' o o' : End) (used : Option StoreSeen) (status : ℕ) (told : TellsScan i) → told_breaks s told ≡ false
        → RunsWell (Some (scan_form s)) i i' o o' used status → ¬ (HasRisen i i')
        → EndsWith 0 (scan_report (scan_by s told.asked) told.filter told.projection) o o' status }
    ensures explain { (i i' o o' : End) (used : Option StoreSeen) (status : ℕ) (told : TellsScan i) → RunsWell (Some explain_form) i i' o o' used status
        → ¬ (HasRisen i i') → EndsWith 0 (explain_text told.asked.zones told.filter told.projection) o o' status }
    ensures show { (showing : Showing) (word : Bytes) (e : Tree) (i i' o o' : End) (used : Option StoreSeen) (status : ℕ) → WordSpells word e
        → RunsWell (Some (show_form showing word)) i i' o o' used status → EndsWith 0 (shown_text showing e) o o' status }
    ensures text { (query : Bytes) (e : Tree) (i i' o o' : End) (used : Option StoreSeen) (status : ℕ) → Names query e → HasBytes e
        → RunsWell (Some (text_form query)) i i' o o' used status → EndsWith 0 (bytes_line e) o o' status }
    ensures generated { (rows : ℕ) (i i' o o' : End) (used : Option StoreSeen) (status : ℕ) → RunsWell (Some (gen_form rows)) i i' o o' used status
        → EndsWith 0 (gen_line rows) o o' status }
{
    wire_laws();
}

/// What a report tells is settled by the bytes of the source: where they hold the scan of a filter and a projection, a
/// run of `scan` or `scan built` that ends with exit status 0 wrote the report of the scan of these two by the statistics of these
/// arguments, and holds its store.
pub fn reports_are_of_the_request()
    ensures written { (s : Statistics) (i i' o o' : End) (used : Option StoreSeen) (told : TellsScan i) → IsRun (Some (scan_form s)) i i' o o' used 0 →
        Added o.bytes o'.bytes (scan_report (scan_by s told.asked) told.filter told.projection) }
    ensures held { (s : Statistics) (i i' o o' : End) (used : Option StoreSeen) (told : TellsScan i) → IsRun (Some (scan_form s)) i i' o o' used 0 →
        used ≡ Some (scanned_store (scan_by s told.asked) told.filter told.projection) }
{
    wire_laws();
}

/// Where the statistics of a request are honest for its table, a report of `scan` that was written tells all rows: what the
/// projection means at exactly the rows at which the filter means true, in the table's order. So it is also of the scan that
/// the bytes of the source hold, where they are told. Of `scan built` `built_reports_are_whole` says the same of any request.
pub fn honest_reports_are_whole()
    ensures reported { (i i' o o' : End) (used : Option StoreSeen) (report : IsReported given i i' o o' used)
        → IsHonest report.asked.zones (scan_table report.asked) → Added o.bytes o'.bytes (whole_report report.asked report.filter report.projection) }
    ensures told { (i i' o o' : End) (used : Option StoreSeen) (told : TellsScan i) → IsRun (Some (scan_form given)) i i' o o' used 0 →
        IsHonest told.asked.zones (scan_table told.asked) → Added o.bytes o'.bytes (whole_report told.asked told.filter told.projection) }
{
    wire_laws();
    kept_rows_are_all();
}

/// A wire text spells one expression at most.
pub(crate) fn wire_laws()
    ensures { WireLaws }
{
    one_tree();
    one_expression();
}
