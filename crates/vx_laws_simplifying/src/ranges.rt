// Ranges in the place of comparisons.

ghost use Rattle.vx_laws_simplifying.specs.Ranged.{RangesKeepAskedColumns, RangesKeepBreaks, RangesKeepColumns, RangesKeepMeaning, RangesKeepType};

/// A strictly typed expression has with its ranges the same type, nullability included.
pub fn ranges_keep_type()
    ensures { RangesKeepType }
{}

/// An expression, typed or not, means with its ranges what it means, at every row.
pub fn ranges_keep_meaning()
    ensures { RangesKeepMeaning }
{}

/// For each path, cause and row a node that an expression asks with its ranges breaks if and only if one breaks that it asks without them.
pub fn ranges_keep_breaks()
    ensures { RangesKeepBreaks }
{}

/// An expression asks with its ranges the same columns, along each path and in the whole.
pub fn ranges_keep_columns()
    ensures along { RangesKeepColumns }
    ensures whole { RangesKeepAskedColumns }
{}
