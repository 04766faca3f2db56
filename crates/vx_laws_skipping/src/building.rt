// The laws of skipping by the statistics that a table has.

ghost use Rattle.vx_laws_skipping.specs.BuiltScans.{BuiltScansAreWhole, BuiltTextScansAreWhole};

use vx_laws_stats::built_statistics_are_honest;
use vx_scan::honest_scans_are_whole;

/// Over a told table whose statistics are those that its rows have, the rows of a report are those of all blocks, the skipped ones too: they are
/// what the projection means at exactly the rows at which the filter means true, with no premise on the statistics.
pub fn built_scans_are_whole()
    ensures exprs { BuiltScansAreWhole }
    ensures texts { BuiltTextScansAreWhole }
{
    honest_scans_are_whole();
    built_statistics_are_honest();
}
