// What the exit status of a run tells of the argument `file`.
ghost use Rattle.std.specs.Prelude.{◌≡◌, ◌⊎◌, ℕ, codes, Option, Some};
ghost use Rattle.vx_io.specs.Ends.{Added};
ghost use Rattle.vx_scan.specs.Stores.{StoreSeen};
ghost use Rattle.vx_laws_file.specs.FileForms.{content_of, file_bytes};
ghost use Rattle.vx_laws_file.specs.HeldTables.{held_blocks};
ghost use Rattle.vx_laws_file.specs.Lengths.{IsShortTable};
ghost use Rattle.vx_laws_file.specs.Opening.{IsOpened};
ghost use Rattle.vx_query.specs.Causes.{HasRisen, IsUnasked};
ghost use Rattle.vx_query.specs.Exactly.{EndsWith, RequestsEndSo, RunsWell};
ghost use Rattle.vx_query.specs.FileCauses.{IsFiled, IsUnfiled, TellsTable};
ghost use Rattle.vx_query.specs.Running.{End, HoldsLongTable, IsRun, asks_file, file_form, file_line};

use vx_laws_file::{files_are_short, written_is_opened};

/// What is written of `file` is settled by the bytes of the source. 0 means that the input was taken, that it is a request whose table has a block file,
/// and that this file was written whole; the bytes of the file are opened and hold the request's table. Where the source's bytes are told and hold a
/// table, the file is of this table. And where there is memory, and no end counts a fault, a run over bytes that hold a table in which nothing is too
/// long, as in each that has a file, ends with 0 and the table's file.
pub fn files_are_of_the_request()
    ensures filed { (i i' o o' : End) (used : Option StoreSeen) → IsRun (Some file_form) i i' o o' used 0 → IsFiled i i' o o' used }
    ensures opened { (i i' o o' : End) (used : Option StoreSeen) (filed : IsFiled i i' o o' used) →
        let zones = filed.asked.zones in let blocks = filed.asked.blocks in
        IsOpened (file_bytes zones blocks) (content_of zones blocks) × (held_blocks (content_of zones blocks) ≡ blocks) }
    ensures told { (i i' o o' : End) (used : Option StoreSeen) (told : TellsTable i) → IsRun (Some file_form) i i' o o' used 0
        → Added o.bytes o'.bytes (file_line told.asked) }
    ensures complete { (i i' o o' : End) (used : Option StoreSeen) (status : ℕ) (told : TellsTable i) → IsShortTable told.asked.zones told.asked.blocks
        → RunsWell (Some file_form) i i' o o' used status → ¬ (HasRisen i i') → EndsWith 0 (file_line told.asked) o o' status }
{
    written_is_opened();
}

/// 3 of `file` means that the input was taken and that the line of its one cause was written: it is no request, or its table is too long for a block
/// file. No store is held then. `file` doesn't end with 4.
pub fn refused_files_have_their_causes()
    ensures refused { (i i' o o' : End) (used : Option StoreSeen) → IsRun (Some file_form) i i' o o' used 3
        → IsUnasked i i' o o' used ⊎ IsUnfiled i i' o o' used }
    ensures no_fourth { (i i' o o' : End) (used : Option StoreSeen) → ¬ (IsRun (Some file_form) i i' o o' used 4) }
{}

/// TooLong is told of a table exactly where the input is a request, and in its table a text, a list, the range of a column or the header has 2^32 or
/// more, or its blocks have more than 1,048,576 rows together.
pub fn long_tables_are_refused_exactly()
    ensures { RequestsEndSo asks_file 3 (codes "TooLong") HoldsLongTable }
{
    files_are_short();
}
