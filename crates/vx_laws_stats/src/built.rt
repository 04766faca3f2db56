// The laws of the statistics that the rows of a table have.

ghost use Rattle.vx_laws_stats.specs.BuiltLaws.{BuiltBoundsAreExtreme, BuiltStatisticsAreHonest, BuiltStatisticsBreakNoRule};
ghost use Rattle.vx_laws_stats.specs.BuiltLaws.{BuiltStatisticsFollowPaths, BuiltStatisticsLoseNoRow, BuiltValuesFit, StatPathsArePlain};

/// The least of values of a plain type is one of them and at most each, the greatest is one of them and at least each; both are null where all
/// values are null.
pub fn built_bounds_are_extreme()
    ensures { BuiltBoundsAreExtreme }
{}

/// The paths of a table's statistics are exactly those that lead through fields of structs to a plain field; each has a minimum, a maximum and a
/// count of nulls, in this order.
pub fn built_statistics_follow_paths()
    ensures paths { StatPathsArePlain }
    ensures order { BuiltStatisticsFollowPaths }
{}

/// The statistics that a table's rows have are honest.
pub fn built_statistics_are_honest()
    ensures { BuiltStatisticsAreHonest }
{}

/// Over the statistics that a table's rows have, the rows of the kept blocks alone are all rows of the answer.
pub fn built_statistics_lose_no_row()
    ensures { BuiltStatisticsLoseNoRow }
{}

/// The statistics that a table's rows have break no rule of zones where the columns' types break none, and each value is one of its type.
pub fn built_statistics_are_zones()
    ensures rules { BuiltStatisticsBreakNoRule }
    ensures fit { BuiltValuesFit }
{}
