// What the exit status of a run tells of the argument `gen`.
ghost use Rattle.std.specs.Prelude.{◌≡◌, ℕ, Option, Some};
ghost use Rattle.vx_scan.specs.Stores.{StoreSeen};
ghost use Rattle.vx_query.specs.GeneratedCauses.{GeneratedEnd, HasGeneratedReads};
ghost use Rattle.vx_query.specs.Running.{End, IsRun, gen_form};

use vx_laws_scan::kept_numbers_are_kept_blocks;

/// A run of `gen` with a number of rows takes nothing, and ends in one of three ways: with 0 and the line of the scan of the
/// generated table of so many rows, whose store is held; with 7, where the sink counted a fault; or with 8, without memory. A store
/// that is held is the one that was scanned: each of its reads is of a block that the statistics don't rule out, and of a column that
/// the filter or the projection asks.
pub fn generated_scans_are_summed()
    ensures ends { (rows : ℕ) (i i' o o' : End) (used : Option StoreSeen) (status : ℕ) → IsRun (Some (gen_form rows)) i i' o o' used status
        → GeneratedEnd rows i i' o o' used status }
    ensures holds { (rows : ℕ) (i i' o o' : End) (store : StoreSeen) (status : ℕ) → IsRun (Some (gen_form rows)) i i' o o' (Some store) status
        → HasGeneratedReads rows store }
{
    kept_numbers_are_kept_blocks();
}
