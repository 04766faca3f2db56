// Expressions split by the columns that they touch.

ghost use Rattle.vx_laws_columns.specs.Columns.{ColumnsCoverRowless, ColumnsRecombine, OneColumnCovers, OnePartitionPerColumn, PartitionsAskTheirColumn};
ghost use Rattle.vx_laws_columns.specs.Columns.{PartitionsBreak, PartitionsBreakAsked, PartitionsOfAskedColumns, PartitionsStandAlone, SplitsByColumns};

/// Where the row stands in an expression only straight below fields, it stands there only in parts by columns.
pub fn columns_cover_rowless()
    ensures { ColumnsCoverRowless }
{}

/// Over a type of one column the row stands in an expression only in parts by columns, wherever it stands.
pub fn one_column_covers()
    ensures { OneColumnCovers }
{}

/// An expression over the rows of a table, with packs of the columns for the row and then simplified by types,
/// of fewer than 2 ^ 64 nodes, is split by its columns without a refusal.
pub fn splits_by_columns()
    ensures { SplitsByColumns }
{}

/// At each row that fits but for faults, with any slots, the root means at what the partitions mean
/// what the expression means at the row.
pub fn columns_recombine()
    ensures { ColumnsRecombine }
{}

/// There is one partition for each column that it asks, in order of first use.
pub fn one_partition_per_column()
    ensures { OnePartitionPerColumn }
{}

/// There is a partition of a column if and only if the expression asks this column.
pub fn partitions_of_asked_columns()
    ensures { PartitionsOfAskedColumns }
{}

/// Each partition asks its column alone, and has a strict type over the table's rows.
pub fn partitions_ask_their_column()
    ensures { PartitionsAskTheirColumn }
{}

/// Over rows of any fields among which its column has the same type, as over rows of this column alone, each partition has the same type;
/// and at such a row it means, and breaks by the same causes, as at each row of the table with the same value of the column.
pub fn partitions_stand_alone()
    ensures { PartitionsStandAlone }
{}

/// At each row that fits but for faults, with any slots, a node that a partition asks breaks by a cause,
/// or one that the root asks at what the partitions mean, if and only if some node of what was split does,
/// and if and only if a node that the expression asks does.
pub fn partitions_break()
    ensures nodes { PartitionsBreak }
    ensures asked { PartitionsBreakAsked }
{}
