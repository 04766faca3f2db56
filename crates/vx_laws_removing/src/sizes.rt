// How many nodes simplifying by types leaves.

ghost use Rattle.vx_laws_removing.specs.Sizes.{SimplifiedStaysSmall};

/// Simplified by types a strictly typed expression of n nodes has at most n * (1 + w * (d + 2)) nodes, where w is the most fields of a
/// struct type that its typing meets, the scope's among them, and d the greatest depth of one.
pub fn simplified_stays_small()
    ensures { SimplifiedStaysSmall }
{}
