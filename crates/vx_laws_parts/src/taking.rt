// Parts taken out of an expression, put back as the fields of a row.

ghost use Rattle.vx_laws_parts.specs.Taking.{TakenKeepsMeaning, TakenKeepsType};

/// Over the struct of the packs of its parts, an expression in which parts were taken out has the type
/// and means what the expression means, where each place of the row stands in a part and the packs have a strict type.
pub fn taken_parts_put_back<A>()
    ensures ty { TakenKeepsType A }
    ensures meaning { TakenKeepsMeaning A }
{}
