// Laws of how the finding of first rows ends: each is the contract of a function that does nothing.

ghost use Rattle.vx_topk.specs.TopEndLaws.{HonestTopsAreFirst, UnbrokenTopsReport, TopsBreakWhereAPhaseBreaks};
ghost use Rattle.vx_topk.specs.TopEndLaws.{RefusedTopsAreRefused, RefusalsAreTheFirst};
ghost use Rattle.vx_topk.specs.TopEndLaws.{TopReportsExcludeErrors, TopRefusalsExcludeBreaks, TopRefusalsAreOne, BothTopBreaksAreOfOnePhase};

/// Over a told table with honest statistics, the rows of a report are the first of all rows at which the filter is true, those of the skipped
/// blocks too.
pub fn honest_tops_are_first()
    ensures { HonestTopsAreFirst }
{}

/// Typed first rows of a told table by a good key, for which no fault was counted and no phase breaks, give a report, or there was no memory.
pub fn unbroken_tops_report()
    ensures { UnbrokenTopsReport }
{}

/// Typed first rows of a told table by a good key, for which no fault was counted and a phase breaks, give Overflow or BadCast, or there was no
/// memory.
pub fn tops_break_where_a_phase_breaks()
    ensures { TopsBreakWhereAPhaseBreaks }
{}

/// The first refusal is told by the key's column and by the typing of filter and projection: where there is one it comes, or there was no memory;
/// and a refusal comes only where it is the first.
pub fn refused_tops_refuse()
    ensures refused { RefusedTopsAreRefused }
    ensures first { RefusalsAreTheFirst }
{}

/// Of the ends over a told table, a report, a refusal before the first block and a break exclude one another, as do two refusals; Overflow and
/// BadCast can both come only where the first phase that breaks does so by a sum and by a cast.
pub fn top_ends_exclude()
    ensures reports { TopReportsExcludeErrors }
    ensures refusals { TopRefusalsExcludeBreaks }
    ensures one_refusal { TopRefusalsAreOne }
    ensures breaks { BothTopBreaksAreOfOnePhase }
{}
