// The statistics of a block of rows.
ghost use Rattle.std.specs.Prelude.{◌≡◌};
ghost use Rattle.vx_dtype.specs.StatNames.{stat_name};

/// A statistic of one path in one block.
#[derive(Clone, Copy, PartialEq, Eq, Hash, Debug)]
pub enum Stat {
    /// The least value that isn't null.
    Min,
    /// The greatest value that isn't null.
    Max,
    /// The number of values that are not a number.
    NaNCount,
    /// The number of nulls.
    NullCount,
}

impl Stat {
    /// The name of the statistic.
    pub fn name(self) -> &'static str
        ensures { result.now ≡ stat_name self }
    {
        match self {
            Stat::Min => "min",
            Stat::Max => "max",
            Stat::NaNCount => "nan_count",
            Stat::NullCount => "null_count",
        }
    }
}
