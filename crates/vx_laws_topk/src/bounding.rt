// The laws of the bounded filter, of the packed key and projection, and of one more row and block.

ghost use Rattle.vx_laws_topk.specs.BoundLaws.{SlotlessMeansTheSame, SlotlessFitsAnySlots, SlotlessRulesOutTheSame};
ghost use Rattle.vx_laws_topk.specs.BoundLaws.{BoundedFilterIsBoolean, BoundSlotsFit, BoundedFilterRulesOutMore, BoundedFilterAsksTheSame};
ghost use Rattle.vx_laws_topk.specs.BoundLaws.{KeyedProjectionIsStruct, KeyedProjectionFitsAnySlots, KeyedProjectionMeansBoth, KeyedProjectionAsksTheSame};
ghost use Rattle.vx_laws_topk.specs.BoundLaws.{BlockRowsArePacked, PackedIsUnpacked, FurtherRowGoesBehindTies, FurtherRowAmongFirst};
ghost use Rattle.vx_laws_topk.specs.BoundLaws.{FoundOverMore, PhasesOverMore, SkippedOverMore};

/// With any slots an expression that compares with no slot means the same, these slots fit it, and it rules out the same blocks.
pub fn slotless_is_the_same_with_any_slots()
    ensures means { SlotlessMeansTheSame }
    ensures fits { SlotlessFitsAnySlots }
    ensures rules_out { SlotlessRulesOutTheSame }
{}

/// Where the filter is a boolean over the rows and the key a column of a plain type, the bounded filter is a boolean, and where the filter
/// compares with no slot, the slots with a bound fit it and it rules out what the filter rules out. It asks a node of another kind than its own
/// exactly where the filter asks one.
pub fn bounded_filter_is_a_filter()
    ensures boolean { BoundedFilterIsBoolean }
    ensures slots { BoundSlotsFit }
    ensures rules_out { BoundedFilterRulesOutMore }
    ensures asks { BoundedFilterAsksTheSame }
{}

/// The packed key and projection is a struct of the two, and asks a node of another kind than its own exactly where the projection asks one.
pub fn keyed_projection_is_both()
    ensures typed { KeyedProjectionIsStruct }
    ensures slots { KeyedProjectionFitsAnySlots }
    ensures means { KeyedProjectionMeansBoth }
    ensures asks { KeyedProjectionAsksTheSame }
{}

/// The rows of a block by the packed key and projection are the rows with their keys, packed; unpacked they are these rows again.
pub fn block_rows_are_packed()
    ensures rows { BlockRowsArePacked }
    ensures unpacked { PackedIsUnpacked }
{}

/// A row that comes after all others goes into the order of their keys behind the rows that it doesn't stand before, and so it does among the
/// first of them.
pub fn further_row_goes_behind_ties()
    ensures order { FurtherRowGoesBehindTies }
    ensures first { FurtherRowAmongFirst }
{}

/// What is found over further blocks, the phases and the skipped blocks follow those over the blocks before.
pub fn further_blocks_follow()
    ensures found { FoundOverMore }
    ensures phases { PhasesOverMore }
    ensures skipped { SkippedOverMore }
{}
