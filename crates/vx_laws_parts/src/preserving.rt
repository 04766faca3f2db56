// Packs of the columns for the row, then simplifying by types, over the type of a table's rows.

ghost use Rattle.vx_laws_parts.specs.Preserved.{PreservedIsRowless, PreservesAskedColumns, PreservesBreaks};
ghost use Rattle.vx_laws_parts.specs.Preserved.{PreservesColumns, PreservesMeaning, PreservesType};

/// A strictly typed expression is not refused, and keeps its type, but perhaps less nullable.
pub fn preserves_type()
    ensures { PreservesType }
{}

/// The row stands in the result only straight below fields.
pub fn preserved_is_rowless()
    ensures { PreservedIsRowless }
{}

/// Some node of the result is a field of the row if and only if the expression asks this column;
/// and the result asks the columns that the expression asks, in the same order.
pub fn preserves_columns()
    ensures nodes { PreservesColumns }
    ensures asked { PreservesAskedColumns }
{}

/// At each row that fits but for faults, with any slots, the result means what the expression means.
pub fn preserves_meaning()
    ensures { PreservesMeaning }
{}

/// There some node of the result breaks by a cause if and only if a node that the expression asks breaks by this cause.
pub fn preserves_breaks()
    ensures { PreservesBreaks }
{}
