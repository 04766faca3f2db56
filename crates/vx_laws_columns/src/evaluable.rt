// What the parts of an expression split by its columns are to one who evaluates them.

ghost use Rattle.vx_laws_columns.specs.Evaluable.{NodesBreakAsAsked, PartitionNodesStandAlone, PartitionsAreDistinct, RootIsTyped, SplitSlotsFit};

/// The root has a strict type over what the partitions give: the expression's, but perhaps less nullable.
pub fn root_is_typed()
    ensures { RootIsTyped }
{}

/// At each row that fits but for faults, with any slots, some node of a partition breaks by a cause,
/// or some node of the root at what the partitions mean, if and only if a node that the expression asks does.
/// So evaluation, which refuses at each node whether it is asked or not, refuses the parts by the causes by which the expression breaks.
pub fn nodes_break_as_asked()
    ensures { NodesBreakAsAsked }
{}

/// Over rows of any fields among which its column has the same type, as over rows of this column alone,
/// some node of a partition breaks by a cause at a row if and only if one does at each row of the table with the same value of the column.
pub fn partition_nodes_stand_alone()
    ensures { PartitionNodesStandAlone }
{}

/// Slots that fit in the expression fit in each partition, and in the root.
pub fn split_slots_fit()
    ensures { SplitSlotsFit }
{}

/// No column has two partitions, and the struct of what the partitions give has no name twice, at any depth.
pub fn partitions_are_distinct()
    ensures { PartitionsAreDistinct }
{}
