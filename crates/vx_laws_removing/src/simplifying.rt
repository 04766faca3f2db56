// Simplifying by types: fields on packs and ranges, then selects, then merges, then fields on packs and ranges again.

ghost use Rattle.vx_passes.specs.TypedSimplifying.{simplified_typed};
ghost use Rattle.vx_laws_simplifying.specs.Keeping.{KeepsAskedColumns, KeepsBreaks, KeepsColumns, KeepsMeaning, KeepsSlots, KeepsType};
ghost use Rattle.vx_laws_removing.specs.Simplest.{SimplifiedNodesAreSimple, SimplifiedStays, SimplifiedOnceStays, RangesStay, SelectsStayGone, MergesStayGone};

/// Simplified by types a strictly typed expression is not refused; it keeps its type, but perhaps less nullable,
/// its asked columns, its slots' fit, its meaning, and whether a node that it asks breaks.
pub fn simplified_typed_keeps()
    ensures ty { KeepsType simplified_typed }
    ensures columns { KeepsColumns simplified_typed }
    ensures asked_columns { KeepsAskedColumns simplified_typed }
    ensures slots { KeepsSlots simplified_typed }
    ensures meaning { KeepsMeaning simplified_typed }
    ensures breaks { KeepsBreaks simplified_typed }
{}

/// What simplifying by types makes of any expression has no select, no merge and no field straight on a pack.
pub fn simplified_nodes_are_simple()
    ensures { SimplifiedNodesAreSimple }
{}

/// What simplifying by types makes of any expression it leaves as it is.
pub fn simplified_stays()
    ensures { SimplifiedStays }
{}

/// What each of the passes by itself makes of any expression it leaves as it is: simplifying, finding ranges, removing selects and
/// removing merges.
pub fn passes_stay()
    ensures simplified { SimplifiedOnceStays }
    ensures ranges { RangesStay }
    ensures selects { SelectsStayGone }
    ensures merges { MergesStayGone }
{}
