// The statistics of a table's blocks.
ghost use Rattle.std.specs.Prelude.{◌≡◌, true, ◌^◌, ◌<◌, None, length, map, IfOk};
ghost use Rattle.vx_dtype.specs.TypeViews.{type_view};
ghost use Rattle.vx_semantics.specs.Tables.{row_type};
ghost use Rattle.vx_zones.specs.Zoning.{broken_rule, values_fit};
ghost use Rattle.vx_zones.specs.ZoneViews.{stat_view, statistic_paths};
ghost use Rattle.vx_zones.specs.ZoneAnswers.{MakesZones};

use crate::errors::ZoneError;
use crate::joined_names::statistic_path;
use crate::value_types::{have_their_types, typed_columns};
use crate::zone_columns::ZoneColumn;
use crate::zone_rules::{column_rule, listed_rule};
use std::alloc::Global;
use std::marker::Model;
use vx_dtype::{DType, FieldPath, FieldPathSet, Mem, Nullability, Scalar, Stat, StructFields};

/// Scalars in order. They are seen as the list of their values beside their types.
#[derive(Debug, Drop)]
pub struct Scalars {
    values: Vec<Scalar>,
}

impl Model for Scalars {
    ghost use Rattle.std.specs.Prelude.{List};
    ghost use Rattle.vx_dtype.specs.Values.{Typed};
    ghost use Rattle.vx_zones.specs.ZoneCodes.{coded_scalars};

    ghost Value = { List Typed };

    ghost coded = { coded_scalars };

    ghost view = { λ s. s.values.items };
}

impl Scalars {
    /// These scalars, in their order.
    pub fn new(values: Vec<Scalar>) -> Scalars
        ensures { result ≡ values.items }
    {
        Scalars { values }
    }

    /// The scalars as a slice.
    pub fn as_slice(&self) -> &[Scalar]
        ensures { result.now ≡ self.now }
    {
        self.values.as_slice()
    }

    /// The scalars again.
    pub fn into_vec(self) -> Vec<Scalar>
        ensures { result.items ≡ self }
    {
        let Scalars { values } = self;
        values
    }
}

/// One statistic of one path: its value in each block.
#[derive(Debug, Drop)]
pub struct ZoneStat {
    /// The path from a column on.
    pub path: FieldPath,
    /// What the values are of the path's values in a block.
    pub stat: Stat,
    /// A value for each block, null where it isn't known.
    pub values: Scalars,
}

/// The statistics of a table: its columns, the number of rows of each block, and the statistics as columns. They break no rule that
/// [`ZoneError`] tells of.
#[derive(Debug, Drop)]
pub struct ZoneMap {
    dtype: DType,
    lengths: Vec<u32>,
    stats: Vec<ZoneColumn>,
}

impl Model for ZoneMap {
    ghost use Rattle.vx_semantics.specs.Tables.{Zones};
    ghost use Rattle.vx_zones.specs.ZoneCodes.{coded_zones};

    ghost Value = { Zones };

    ghost coded = { coded_zones };

    ghost use Rattle.vx_dtype.specs.TypeViews.{type_view};
    ghost use Rattle.vx_zones.specs.ZoneViews.{zones_with, AreZones};

    ghost view = { λ z. zones_with (type_view z.dtype) z.lengths.items z.stats.items };

    ghost invariant = { λ z. AreZones (type_view z.dtype) z.lengths.items z.stats.items };
}

impl ZoneMap {
    /// The zones of a table with these columns, whose blocks have these numbers of rows. It is refused exactly where a
    /// rule is broken, by the first one in the order of [`ZoneError`].
    pub fn try_new(
        alloc: Global,
        fields: StructFields,
        lengths: Vec<u32>,
        stats: Vec<ZoneStat>,
    ) -> Result<ZoneMap, ZoneError>
        requires { length lengths.items < 2 ^ 32 }
        ensures { MakesZones (record { columns = fields; lengths = lengths.items; stats = map stat_view stats.items }) result }
    {
        if let Some(error) = listed_rule(alloc, &fields, lengths.as_slice(), stats.as_slice())? {
            return Err(error);
        }
        let dtype = DType::Struct(fields, Nullability::NonNullable);
        match typed_columns(alloc, &dtype, stats.as_slice())? {
            Some(stats) => Ok(ZoneMap {
                dtype,
                lengths,
                stats,
            }),
            None => Err(ZoneError::WrongStatType),
        }
    }

    /// The zones of a table with these columns, whose blocks have these numbers of rows, as `try_new` answers, with statistics that are columns.
    pub fn of_columns(
        alloc: Global,
        fields: StructFields,
        lengths: Vec<u32>,
        stats: Vec<ZoneColumn>,
    ) -> Result<ZoneMap, ZoneError>
        requires { length lengths.items < 2 ^ 32 }
        ensures { MakesZones (record { columns = fields; lengths = lengths.items; stats = stats.items }) result }
    {
        if let Some(error) = column_rule(alloc, &fields, lengths.as_slice(), stats.as_slice())? {
            return Err(error);
        }
        let dtype = DType::Struct(fields, Nullability::NonNullable);
        if !have_their_types(&dtype, stats.as_slice())? {
            return Err(ZoneError::WrongStatType);
        }
        Ok(ZoneMap {
            dtype,
            lengths,
            stats,
        })
    }

    /// The type of the table's rows: the struct of its columns, not nullable.
    pub fn dtype(&self) -> &DType
        ensures dtype { type_view result.now ≡ row_type self.now.columns }
        ensures rules { broken_rule self.now ≡ None }
        ensures fit { values_fit self.now ≡ true }
    {
        &self.dtype
    }

    /// The number of rows of each block. There are fewer than 2^32 blocks.
    pub fn lengths(&self) -> &[u32]
        ensures lengths { result.now ≡ self.now.lengths }
        ensures few { length self.now.lengths < 2 ^ 32 }
        ensures rules { broken_rule self.now ≡ None }
        ensures fit { values_fit self.now ≡ true }
    {
        self.lengths.as_slice()
    }

    /// The statistics as columns, in order.
    pub fn statistics(&self) -> &[ZoneColumn]
        ensures stats { result.now ≡ self.now.stats }
        ensures rules { broken_rule self.now ≡ None }
        ensures fit { values_fit self.now ≡ true }
    {
        self.stats.as_slice()
    }

    /// The statistics with their values one by one, in order.
    pub fn stats(&self, alloc: Global) -> Mem<Vec<ZoneStat>>
        ensures { IfOk result (λ stats. map stat_view stats.items ≡ self.now.stats) }
    {
        let mut stats = Vec::with_capacity(alloc, self.stats.len())?;
        for stat in &self.stats {
            stats.push(stat.listed(alloc)?)?;
        }
        Ok(stats)
    }

    /// The paths that stand for the statistics: of each its path with its name at the end, in order. Those of one joined name are listed
    /// too, as `a`, `b` beside `a_b`: a catalog over these paths answers none of them, since their columns would have one name.
    pub fn available(&self, alloc: Global) -> Mem<FieldPathSet>
        ensures { IfOk result (λ paths. paths ≡ statistic_paths self.now.stats) }
    {
        statistic_paths(alloc, self.statistics())
    }
}

/// The paths that stand for statistics, in order, none twice.
fn statistic_paths(alloc: Global, stats: &[ZoneColumn]) -> Mem<FieldPathSet>
    ensures { IfOk result (λ paths. paths ≡ statistic_paths stats.now) }
{
    let mut paths = FieldPathSet::new(alloc);
    for stat in stats {
        paths.insert(statistic_path(alloc, stat.path(), stat.stat())?)?;
    }
    Ok(paths)
}
