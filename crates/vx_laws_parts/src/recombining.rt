// An expression split by its annotations, put together again.

ghost use Rattle.vx_laws_parts.specs.Recombining.{PartsAreTyped, SplitRecombines, SplitsWithoutRefusal, TextsTellShares};

/// Where no two annotations have one text, no two shares of an expression have one.
pub fn texts_tell_shares<A>()
    ensures { TextsTellShares A }
{}

/// The packs of the parts of a strictly typed expression have a strict type, where each place of the row stands in a part,
/// no two shares have one text, and the expression has fewer than 2 ^ 64 nodes.
pub fn parts_are_typed<A>()
    ensures { PartsAreTyped A }
{}

/// There an expression is split without a refusal; its partitions are those of the shares, in order.
pub fn splits_without_refusal<A>()
    ensures { SplitsWithoutRefusal A }
{}

/// There, at each row that fits but for faults, with any slots, the root means at what the partitions mean
/// what the expression means at the row.
pub fn split_recombines<A>()
    ensures { SplitRecombines A }
{}
