// Fields straight on packs and ranges, taken away or found.

ghost use Rattle.vx_passes.specs.Simplifying.{simplified, without_packed_fields};
ghost use Rattle.vx_laws_simplifying.specs.Keeping.{KeepsAskedColumns, KeepsBreaks, KeepsColumns, KeepsMeaning, KeepsSlots, KeepsType};

/// Without fields straight on packs a strictly typed expression is not refused; it keeps its type, but perhaps less nullable,
/// its asked columns, its slots' fit, its meaning, and whether a node that it asks breaks.
pub fn without_packed_fields_keeps()
    ensures ty { KeepsType (λ t e. without_packed_fields e) }
    ensures columns { KeepsColumns (λ t e. without_packed_fields e) }
    ensures asked_columns { KeepsAskedColumns (λ t e. without_packed_fields e) }
    ensures slots { KeepsSlots (λ t e. without_packed_fields e) }
    ensures meaning { KeepsMeaning (λ t e. without_packed_fields e) }
    ensures breaks { KeepsBreaks (λ t e. without_packed_fields e) }
{}

/// Simplified it isn't refused either, and keeps the same.
pub fn simplified_keeps()
    ensures ty { KeepsType (λ t e. simplified e) }
    ensures columns { KeepsColumns (λ t e. simplified e) }
    ensures asked_columns { KeepsAskedColumns (λ t e. simplified e) }
    ensures slots { KeepsSlots (λ t e. simplified e) }
    ensures meaning { KeepsMeaning (λ t e. simplified e) }
    ensures breaks { KeepsBreaks (λ t e. simplified e) }
{}
