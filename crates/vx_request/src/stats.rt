// The statistics of a request, read into columns of their types.
ghost use Rattle.std.specs.Prelude.{◌≡◌, false, map, IfOk};
ghost use Rattle.std.specs.List.{list_all};
ghost use Rattle.vx_dtype.specs.TypeViews.{type_view};
ghost use Rattle.vx_semantics.specs.Tables.{row_type};
ghost use Rattle.vx_zones.specs.LeafTypes.{plain_from};
ghost use Rattle.vx_zones.specs.ZoneViews.{head_view};
ghost use Rattle.vx_zones.specs.Zoning.{has_its_type};
ghost use Rattle.vx_request.specs.ReadStatistics.{text_head, AreRead, IsRead, RefusesZones};
ghost use Rattle.vx_request.specs.Requests.{stat_of};
ghost use Rattle.vx_request.specs.RequestViews.{name_view, stat_view};

use crate::columns::column_in;
use crate::request_members::Statistic;
use std::alloc::Global;
use vx_dtype::{DType, FieldName, FieldPath, Mem, StructFields};
use vx_zones::{StatHead, ZoneColumn, ZoneError, head_rule, type_of_values};

/// The statistics of a table with rows of this type as columns of their types, made nullable; none exactly where the path of one leads to no plain
/// field, or a cell of one is no value of its type.
pub(crate) fn stats_of(
    alloc: Global,
    row: &DType,
    stats: &[Statistic<'_>],
) -> Mem<Option<Vec<ZoneColumn>>>
    ensures { IfOk result (AreRead (plain_from (type_view row.now)) (map stat_view stats.now)) }
{
    let mut made = Vec::with_capacity(alloc, stats.len())?;
    for stat in stats {
        let Some(column) = stat_of(alloc, row, stat)? else {
            return Ok(None);
        };
        made.push(column)?;
    }
    Ok(Some(made))
}

/// A statistic of a table with rows of this type as a column of its type, made nullable; none exactly where its path leads to no plain field, or a cell
/// is no value of that type.
fn stat_of(alloc: Global, row: &DType, stat: &Statistic<'_>) -> Mem<Option<ZoneColumn>>
    ensures { IfOk result (IsRead (plain_from (type_view row.now)) (stat_view stat.now)) }
{
    let path = path_of(alloc, stat.path.as_slice())?;
    let Some(dtype) = type_of_values(row, &path, stat.stat)? else {
        return Ok(None);
    };
    match column_in(alloc, &dtype, stat.values.as_slice())? {
        Some(values) => Ok(Some(ZoneColumn::new(alloc, path, stat.stat, values)?)),
        None => Ok(None),
    }
}

/// The path of these names.
fn path_of(alloc: Global, names: &[&str]) -> Mem<FieldPath>
    ensures { IfOk result (λ path. path ≡ map name_view names.now) }
{
    let mut path = Vec::with_capacity(alloc, names.len())?;
    for name in names {
        path.push(FieldName::new(alloc, name)?)?;
    }
    FieldPath::from_names(alloc, path)
}

/// Why columns, lengths and statistics are no zones, of which one has a path to no plain field or a cell that is no value of its type.
pub(crate) fn refusal_of(
    alloc: Global,
    columns: &StructFields,
    lengths: &[u32],
    stats: &[Statistic<'_>],
) -> Mem<ZoneError>
    requires { list_all (has_its_type columns.now) (map (stat_of columns.now) (map stat_view stats.now)) ≡ false }
    ensures { IfOk result (RefusesZones (record { columns = columns.now; lengths = lengths.now; stats = map (stat_of columns.now) (map stat_view stats.now) })) }
{
    let paths = paths_of(alloc, stats)?;
    let heads = heads_of(alloc, paths.as_slice(), stats)?;
    match head_rule(alloc, columns, lengths, heads.as_slice())? {
        Some(error) => Ok(error),
        None => Ok(ZoneError::WrongStatType),
    }
}

/// The paths of statistics.
fn paths_of(alloc: Global, stats: &[Statistic<'_>]) -> Mem<Vec<FieldPath>>
    ensures { IfOk result (λ paths. paths.items ≡ map (λ s. s.path) (map stat_view stats.now)) }
{
    let mut paths = Vec::with_capacity(alloc, stats.len())?;
    for stat in stats {
        paths.push(path_of(alloc, stat.path.as_slice())?)?;
    }
    Ok(paths)
}

/// What statistics with these paths are of, and how many cells they have.
fn heads_of<'a>(
    alloc: Global,
    paths: &'a [FieldPath],
    stats: &[Statistic<'_>],
) -> Mem<Vec<StatHead<'a>>>
    requires { paths.now ≡ map (λ s. s.path) (map stat_view stats.now) }
    ensures { IfOk result (λ heads. map head_view heads.items ≡ map text_head (map stat_view stats.now)) }
{
    let mut heads = Vec::with_capacity(alloc, stats.len())?;
    for i in 0..stats.len() {
        heads.push(head_of(&paths[i], &stats[i]))?;
    }
    Ok(heads)
}

/// What a statistic with this path is of, and how many cells it has.
#[tactic(auto, using(crate::proofs::ItemLemmas::cells_number))]
fn head_of<'a>(path: &'a FieldPath, stat: &Statistic<'_>) -> StatHead<'a>
    requires { path.now ≡ (stat_view stat.now).path }
    ensures { head_view result ≡ text_head (stat_view stat.now) }
{
    StatHead {
        path,
        stat: stat.stat,
        count: stat.values.len(),
    }
}
