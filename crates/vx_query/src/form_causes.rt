// What the exit status of a run tells of the form of its arguments.
ghost use Rattle.std.specs.Prelude.{◌≡◌, ◌⊎◌, ℕ, false, Option, None, Some};
ghost use Rattle.vx_dtype.specs.Types.{Bytes};
ghost use Rattle.vx_io.specs.Ends.{Added};
ghost use Rattle.vx_scan.specs.Stores.{StoreSeen};
ghost use Rattle.vx_explain.specs.Explanations.{explain_text};
ghost use Rattle.vx_query.specs.Causes.{HasRisen, IsExplained, IsShown, IsMisuse, IsTold, IsUndigited, IsUnshown, IsUnnamed, TellsScan};
ghost use Rattle.vx_query.specs.Running.{End, Form, IsRun, Showing, Statistics, asked_rows, asked_statistics, asked_top};
ghost use Rattle.vx_query.specs.Running.{reads_input, shown_word, scan_form, explain_form, show_form, text_form, top_form, scan_file_form, shown_text};
ghost use Rattle.vx_query.specs.TopWords.{AskedTop};
ghost use Rattle.vx_query.specs.Running.{help_form, version_form, help_text, version_text};

use crate::causes::wire_laws;

/// 2 means that the arguments have no form. Where they have none, a run takes nothing, and ends with 2 and the line of
/// Usage where the sink counts no fault.
pub fn usage_exactly()
    ensures only { (form : Option Form) (i i' o o' : End) (used : Option StoreSeen) → IsRun form i i' o o' used 2 → form ≡ None }
    ensures always { (i i' o o' : End) (used : Option StoreSeen) (status : ℕ) → IsRun None i i' o o' used status → ¬ (HasRisen o o')
        → IsMisuse i i' o o' used status }
{}

/// Only `scan`, `scan built`, `scan file` and `top` end with 5; they, but for `scan file`, and `gen` alone hold a store; arguments that read no input take
/// nothing of the source.
pub fn scans_alone_break_and_hold()
    ensures breaks { (form : Option Form) (i i' o o' : End) (used : Option StoreSeen) → IsRun form i i' o o' used 5
        → ((s : Statistics) × (form ≡ Some (scan_form s))) ⊎ (((top : AskedTop) × (form ≡ Some (top_form top))) ⊎ (form ≡ Some scan_file_form)) }
    ensures holds { (form : Option Form) (i i' o o' : End) (used : Option StoreSeen) (status : ℕ) → asked_statistics form ≡ None
        → asked_rows form ≡ None → asked_top form ≡ None → IsRun form i i' o o' used status → used ≡ None }
    ensures takes { (form : Option Form) (i i' o o' : End) (used : Option StoreSeen) (status : ℕ) → reads_input form ≡ false
        → IsRun form i i' o o' used status → i' ≡ i }
{}

/// What an explanation tells is settled by the bytes of the source. 0 of the argument `explain` means that the explanation
/// of the scan which the input holds was written whole: of a filter and a projection that are strictly typed for its table,
/// the filter a boolean. Where the source's bytes are told and hold a scan, the explanation is of this scan.
pub fn explanations_are_of_the_request()
    ensures explained { (i i' o o' : End) (used : Option StoreSeen) → IsRun (Some explain_form) i i' o o' used 0 → IsExplained i i' o o' used }
    ensures told { (i i' o o' : End) (used : Option StoreSeen) (told : TellsScan i) → IsRun (Some explain_form) i i' o o' used 0
        → Added o.bytes o'.bytes (explain_text told.asked.zones told.filter told.projection) }
{
    wire_laws();
}

/// 0 of the argument `show` with a word means that the bytes of the word, two hexadecimal digits for each, spell an
/// expression, whose line was written whole; 0 of `show tree` that its tree was, and of `show query` the query that names it.
pub fn shown_texts_are_spelled()
    ensures { (showing : Showing) (word : Bytes) (i i' o o' : End) (used : Option StoreSeen) → IsRun (Some (show_form showing word)) i i' o o' used 0
        → IsShown (shown_text showing) word i i' o o' used }
{}

/// Where the argument is `--help`, a run takes nothing, and ends with 0 and the text of help where the sink counts no fault; and
/// where it is `--version`, with the version.
pub fn help_and_version_are_told()
    ensures help { (i i' o o' : End) (used : Option StoreSeen) (status : ℕ) → IsRun (Some help_form) i i' o o' used status → ¬ (HasRisen o o')
        → IsTold help_text i i' o o' used status }
    ensures version { (i i' o o' : End) (used : Option StoreSeen) (status : ℕ) → IsRun (Some version_form) i i' o o' used status → ¬ (HasRisen o o')
        → IsTold version_text i i' o o' used status }
{}

/// 3 of the argument `show` means that the word is no hexadecimal text, 4 that its bytes spell no expression, and 4 of `text`
/// that the query has no bytes; the line of the cause was written whole, nothing was taken, and no store is held. `text` doesn't
/// end with 3. Which refusal a line tells is said by the laws of `refusal_causes` and `query_causes`.
pub fn refused_words_have_their_causes()
    ensures no_digits { (form : Option Form) (word : Bytes) (i i' o o' : End) (used : Option StoreSeen) → shown_word form ≡ Some word
        → IsRun form i i' o o' used 3 → IsUndigited word i i' o o' used }
    ensures no_expression { (form : Option Form) (word : Bytes) (i i' o o' : End) (used : Option StoreSeen) → shown_word form ≡ Some word
        → IsRun form i i' o o' used 4 → IsUnshown word i i' o o' used }
    ensures no_bytes { (query : Bytes) (i i' o o' : End) (used : Option StoreSeen) → IsRun (Some (text_form query)) i i' o o' used 4
        → IsUnnamed query i i' o o' used }
    ensures no_third { (query : Bytes) (i i' o o' : End) (used : Option StoreSeen) → ¬ (IsRun (Some (text_form query)) i i' o o' used 3) }
{}
