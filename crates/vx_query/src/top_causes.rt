// What the exit status of a run tells of the argument `top`.
ghost use Rattle.std.specs.Prelude.{◌≡◌, ◌⊎◌, ℕ, codes, false, true, Option, Some};
ghost use Rattle.vx_dtype.specs.Types.{Bytes};
ghost use Rattle.vx_semantics.specs.Breaks.{Cause};
ghost use Rattle.vx_semantics.specs.Honest.{IsHonest};
ghost use Rattle.vx_io.specs.Ends.{Added};
ghost use Rattle.vx_scan.specs.Stores.{StoreSeen};
ghost use Rattle.vx_query.specs.Causes.{HasRisen};
ghost use Rattle.vx_query.specs.Exactly.{Tells, RunsWell, EndsWith, KeysEndSo};
ghost use Rattle.vx_query.specs.Refusals.{refusal_line, break_name};
ghost use Rattle.vx_query.specs.TopCauses.{IsTopped, IsUnkeyed, IsKeyedUnscanned, IsTopStopped, HasTopBroken, HasTopReads, TellsTop, whole_top_report};
ghost use Rattle.vx_query.specs.TopWords.{AskedTop, unknown_key, bad_key};
ghost use Rattle.vx_query.specs.Running.{End, IsRun, HoldsNoKey, top_form, words_of, scan_table, top_report, topped_store};
ghost use Rattle.vx_query.specs.Running.{top_broken_store, top_breaks, top_breaks_by};

use crate::causes::wire_laws;
use vx_laws_scan::kept_numbers_are_kept_blocks;
use vx_laws_topk::{
    bounded_filter_is_a_filter, slotless_is_the_same_with_any_slots, top_is_of_all_rows,
};

/// 0 of `top` means that the input was taken, that it is a request whose two byte texts spell expressions that are strictly
/// typed for its table, the filter a boolean, that the key is one of the table's columns, of a plain type, that no phase of the
/// search breaks, and that the report of the first rows was written whole.
pub fn searches_find_typed_rows()
    ensures { (top : AskedTop) (i i' o o' : End) (used : Option StoreSeen) → IsRun (Some (top_form top)) i i' o o' used 0 → IsTopped top i i' o o' used }
{}

/// 4 of `top` means that the input was taken and that the line of its one cause was written: its key is refused; or its expressions
/// are, and the key isn't. No store is held then.
pub fn refused_searches_have_their_causes()
    ensures { (top : AskedTop) (i i' o o' : End) (used : Option StoreSeen) → IsRun (Some (top_form top)) i i' o o' used 4
        → IsUnkeyed top i i' o o' used ⊎ IsKeyedUnscanned top i i' o o' used }
{}

/// UnknownKey is told exactly where the two texts of a request spell expressions and its table has no column of the key's name; BadKey
/// exactly where it has one whose type isn't plain: a list or a struct.
pub fn keys_are_refused_exactly()
    ensures unknown { KeysEndSo 4 (codes "UnknownKey") (HoldsNoKey unknown_key) }
    ensures bad { KeysEndSo 4 (codes "BadKey") (HoldsNoKey bad_key) }
{}

/// 5 of `top` means that the input holds a search of which a phase breaks, that the line of a cause was written by which the first phase
/// that breaks does so, and that the store is held with the reads up to there. Where the sink tells the line, this is its cause. And a run
/// over a source that tells its bytes, which hold a search some phase of which breaks, ends so where there is memory and no end counts a
/// fault.
pub fn searches_break_exactly()
    ensures only { (top : AskedTop) (i i' o o' : End) (used : Option StoreSeen) → IsRun (Some (top_form top)) i i' o o' used 5
        → IsTopStopped top i i' o o' used }
    ensures told { (cause : Cause) (top : AskedTop) (i i' o o' : End) (used : Option StoreSeen)
        → Tells (Some (top_form top)) i i' o o' used 5 (refusal_line (break_name cause)) → HasTopBroken cause top i i' }
    ensures always { (i i' o o' : End) (used : Option StoreSeen) (status : ℕ) (told : TellsTop i) → top_breaks told.asked told.ask ≡ true
        → RunsWell (Some (top_form (words_of told.ask))) i i' o o' used status → ¬ (HasRisen i i')
        → ((cause : Cause) × (top_breaks_by cause told.asked told.ask ≡ true) × EndsWith 5 (refusal_line (break_name cause)) o o' status)
        × (used ≡ Some (top_broken_store told.asked told.ask)) }
{
    wire_laws();
}

/// The store that is held after a run of `top` has just the reads of the search that the arguments and the input ask, up to the end of its first
/// phase that breaks where one does: each is of a block that the filter alone doesn't rule out, and of a column that the filter, the key or the
/// projection asks; none stands twice, and there is none where no row is asked.
pub fn searches_ask_their_reads()
    ensures { (top : AskedTop) (i i' o o' : End) (store : StoreSeen) (status : ℕ) → IsRun (Some (top_form top)) i i' o o' (Some store) status
        → HasTopReads top i i' store }
{
    kept_numbers_are_kept_blocks();
    slotless_is_the_same_with_any_slots();
    bounded_filter_is_a_filter();
}

/// Where there is memory, and no end counts a fault, a run of `top` over a source that tells its bytes, which hold a search no phase
/// of which breaks, ends with 0 and the report of its first rows.
pub fn first_rows_are_complete()
    ensures { (i i' o o' : End) (used : Option StoreSeen) (status : ℕ) (told : TellsTop i) → top_breaks told.asked told.ask ≡ false
        → RunsWell (Some (top_form (words_of told.ask))) i i' o o' used status → ¬ (HasRisen i i')
        → EndsWith 0 (top_report told.asked told.ask) o o' status }
{
    wire_laws();
}

/// What first rows are told is settled by the bytes of the source: where they hold a search, a run of `top` by its words that ends with exit
/// status 0 wrote the report of this search, and holds its store.
pub fn first_rows_are_of_the_request()
    ensures written { (i i' o o' : End) (used : Option StoreSeen) (told : TellsTop i) → IsRun (Some (top_form (words_of told.ask))) i i' o o' used 0
        → Added o.bytes o'.bytes (top_report told.asked told.ask) }
    ensures held { (i i' o o' : End) (used : Option StoreSeen) (told : TellsTop i) → IsRun (Some (top_form (words_of told.ask))) i i' o o' used 0
        → used ≡ Some (topped_store told.asked told.ask) }
{
    wire_laws();
}

/// Where the statistics of a request are honest for its table, the rows of a report of `top` that was written are the first by the
/// key of all rows at which the filter means true, whatever blocks were skipped. So it is also of the search that the bytes of the
/// source hold, where they are told.
pub fn honest_first_rows_are_of_all_rows()
    ensures reported { (top : AskedTop) (i i' o o' : End) (used : Option StoreSeen) (report : IsTopped top i i' o o' used)
        → IsHonest report.search.asked.zones (scan_table report.search.asked)
        → Added o.bytes o'.bytes (whole_top_report report.search.asked report.search.ask) }
    ensures told { (i i' o o' : End) (used : Option StoreSeen) (told : TellsTop i) → IsRun (Some (top_form (words_of told.ask))) i i' o o' used 0
        → IsHonest told.asked.zones (scan_table told.asked) → Added o.bytes o'.bytes (whole_top_report told.asked told.ask) }
{
    wire_laws();
    top_is_of_all_rows();
}
