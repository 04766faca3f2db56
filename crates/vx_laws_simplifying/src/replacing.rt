// Replacing an expression by another that means the same.

ghost use Rattle.vx_laws_simplifying.specs.Replaced.{ReplacingKeepsMeaning, ReplacingKeepsType};

/// Where needle and replacement are strictly typed, with types equal but for nullability,
/// an expression that is strictly typed before and after has types that are equal but for nullability.
pub fn replacing_keeps_type()
    ensures { ReplacingKeepsType }
{}

/// Where the two also mean the same at a row, that expression means the same after as before.
pub fn replacing_keeps_meaning()
    ensures { ReplacingKeepsMeaning }
{}
