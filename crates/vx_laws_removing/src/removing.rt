// Selects and merges taken away by the looser typing.

ghost use Rattle.vx_passes.specs.Merging.{without_merge};
ghost use Rattle.vx_passes.specs.Selecting.{without_select};
ghost use Rattle.vx_laws_simplifying.specs.Keeping.{KeepsAskedColumns, KeepsBreaks, KeepsColumns, KeepsMeaning, KeepsSlots, KeepsType};
ghost use Rattle.vx_laws_removing.specs.LooseTypes.{StrictTypesAreLoose};

/// A strictly typed expression has by the looser rules the same type.
pub fn strict_types_are_loose()
    ensures { StrictTypesAreLoose }
{}

/// Without selects a strictly typed expression is not refused; it keeps its type, but perhaps less nullable,
/// its asked columns, its slots' fit, its meaning, and whether a node that it asks breaks.
pub fn without_select_keeps()
    ensures ty { KeepsType without_select }
    ensures columns { KeepsColumns without_select }
    ensures asked_columns { KeepsAskedColumns without_select }
    ensures slots { KeepsSlots without_select }
    ensures meaning { KeepsMeaning without_select }
    ensures breaks { KeepsBreaks without_select }
{}

/// Without merges it isn't refused either, and keeps the same.
pub fn without_merge_keeps()
    ensures ty { KeepsType without_merge }
    ensures columns { KeepsColumns without_merge }
    ensures asked_columns { KeepsAskedColumns without_merge }
    ensures slots { KeepsSlots without_merge }
    ensures meaning { KeepsMeaning without_merge }
    ensures breaks { KeepsBreaks without_merge }
{}
