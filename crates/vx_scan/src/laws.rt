// Laws of how scans end: each is the contract of a function that does nothing.

ghost use Rattle.vx_scan.specs.Cutting.{ScansOfRuns};
ghost use Rattle.vx_scan.specs.Opening.{OtherSlotsServe};
ghost use Rattle.vx_scan.specs.ScanLaws.{HonestScansAreWhole, HonestTextScansAreWhole, TextsScanAsTheySpell};
ghost use Rattle.vx_scan.specs.ScanLaws.{FaultlessStoresCountNoFault, UnbrokenScansReport, UnbrokenTextScansReport};
ghost use Rattle.vx_scan.specs.ScanLaws.{ScansBreakWhereAPhaseBreaks, TextScansBreakWhereAPhaseBreaks};
ghost use Rattle.vx_scan.specs.ScanLaws.{ReportsExcludeErrors, RefusalsExcludeBreaks, RefusalsAreOne, BothBreaksAreOfOnePhase};
ghost use Rattle.vx_scan.specs.ScanLaws.{TextReportsExcludeErrors, TextRefusalsExcludeBreaks};
ghost use Rattle.vx_scan.specs.ScanLaws.{RefusedTypesAreRefused, RefusedTextsAreRefused};
ghost use Rattle.vx_scan.specs.ScanLaws.{ReadsAreAsked, ReadsAreDistinct};

/// Two texts that spell expressions are scanned as these are, without slots: no two texts spell two pairs.
pub fn texts_scan_as_they_spell()
    ensures { TextsScanAsTheySpell }
{}

/// A scan that was made ready with some slots is ready with all others that fit both of its expressions.
pub fn prepared_scans_take_other_slots()
    ensures { OtherSlotsServe }
{}

/// Over a told table with honest statistics, the rows of a report are those of all blocks, the skipped ones too.
pub fn honest_scans_are_whole()
    ensures exprs { HonestScansAreWhole }
    ensures texts { HonestTextScansAreWhole }
{}

/// A store that is known to count no fault has counted none in a scan.
pub fn faultless_stores_count_no_fault()
    ensures { FaultlessStoresCountNoFault }
{}

/// A scan of typed expressions over a told table, in which no fault was counted and no phase breaks, gives a report, or there was no memory.
pub fn unbroken_scans_report()
    ensures exprs { UnbrokenScansReport }
    ensures texts { UnbrokenTextScansReport }
{}

/// A scan of typed expressions over a told table, in which no fault was counted and a phase breaks, gives Overflow or BadCast, or there was no memory.
pub fn scan_breaks_where_a_phase_breaks()
    ensures exprs { ScansBreakWhereAPhaseBreaks }
    ensures texts { TextScansBreakWhereAPhaseBreaks }
{}

/// Where the typing of the expressions refuses, a scan gives that refusal, or there was no memory; and so where the texts are refused, which are so for
/// one reason at most.
pub fn refused_scans_refuse()
    ensures types { RefusedTypesAreRefused }
    ensures texts { RefusedTextsAreRefused }
{}

/// Of the ends of a scan over a told table, a report, a refusal before the first block and a break exclude one another, as do two refusals;
/// Overflow and BadCast can both come only where the first phase that breaks does so by a sum and by a cast.
pub fn scan_ends_exclude()
    ensures reports { ReportsExcludeErrors }
    ensures refusals { RefusalsExcludeBreaks }
    ensures one_refusal { RefusalsAreOne }
    ensures breaks { BothBreaksAreOfOnePhase }
    ensures text_reports { TextReportsExcludeErrors }
    ensures text_refusals { TextRefusalsExcludeBreaks }
{}

/// Each read of a scan is of a kept block and of a column that the filter or the projection asks, and none is made twice.
pub fn reads_are_asked()
    ensures asked { ReadsAreAsked }
    ensures distinct { ReadsAreDistinct }
{}

/// Where a table's blocks are cut into two runs, with their statistics, the rows, the kept and the skipped blocks, the phases and the reads of a scan
/// of the table are those of the first run and then those of the second one, whose block numbers are shifted.
pub fn scans_of_runs()
    ensures { ScansOfRuns }
{}
