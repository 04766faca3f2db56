// The statistics of one plain field.
ghost use Rattle.std.specs.Prelude.{◌≡◌, pos, true, ◌∷◌, [], map, IfOk, OnOk};
ghost use Rattle.vx_dtype.specs.declared.Nullability.TheVariants.{Nullable};
ghost use Rattle.vx_dtype.specs.declared.PType.TheVariants.{U64};
ghost use Rattle.vx_dtype.specs.declared.Stat.TheVariants.{Min as MinStat, Max as MaxStat, NullCount as NullCountStat};
ghost use Rattle.vx_dtype.specs.Types.{int_ty};
ghost use Rattle.vx_dtype.specs.TypeRules.{is_plain, with_nullability};
ghost use Rattle.vx_dtype.specs.TypeViews.{type_view};
ghost use Rattle.vx_dtype.specs.RawViews.{raw_view};
ghost use Rattle.vx_dtype.specs.Values.{raw_int};
ghost use Rattle.vx_dtype.specs.Fits.{fits};
ghost use Rattle.vx_laws_stats.specs.BuiltStatistics.{built_scalar, null_count, statistics_of};
ghost use Rattle.vx_stats.specs.ColumnFacts.{AreOf, column_rows};
ghost use Rattle.vx_stats.specs.Walks.{AddsStatistics, leaf};

use crate::bounds::bounds_of;
use std::alloc::Global;
use vx_column::ColumnRef;
use vx_dtype::{DType, FieldPath, Mem, Nullability, PType, Scalar, ScalarValue, Stat};
use vx_kernels::is_null;
use vx_zones::{Scalars, ZoneStat};

/// The statistics of a plain field in each block so far.
#[derive(Drop)]
struct Found {
    minima: Vec<Scalar>,
    maxima: Vec<Scalar>,
    counts: Vec<Scalar>,
}

/// Puts the statistics of the plain field of a path and a type behind the others; its values in each block are those of these columns.
pub(crate) fn add_leaf(
    alloc: Global,
    path: FieldPath,
    dtype: &DType,
    columns: &[ColumnRef],
    stats: &mut Vec<ZoneStat>,
) -> Mem<()>
    requires plain { is_plain (type_view dtype.now) ≡ true }
    requires types { AreOf (type_view dtype.now) columns.now }
    ensures { OnOk result (AddsStatistics (statistics_of (leaf path (type_view dtype.now)) (column_rows columns.now)) stats.old.items stats.new.items) }
{
    let Found {
        minima,
        maxima,
        counts,
    } = found_in(alloc, dtype, columns)?;
    add_statistic(path.clone()?, Stat::Min, minima, stats)?;
    add_statistic(path.clone()?, Stat::Max, maxima, stats)?;
    add_statistic(path, Stat::NullCount, counts, stats)
}

/// Puts a statistic behind the others.
fn add_statistic(
    path: FieldPath,
    stat: Stat,
    values: Vec<Scalar>,
    stats: &mut Vec<ZoneStat>,
) -> Mem<()>
    ensures { OnOk result (AddsStatistics (record { path = path; stat = stat; values = values.items } ∷ []) stats.old.items stats.new.items) }
{
    stats.push(ZoneStat {
        path,
        stat,
        values: Scalars::new(values),
    })?;
    Ok(())
}

/// The statistics of a plain field of this type whose values in each block are those of these columns.
fn found_in(alloc: Global, dtype: &DType, columns: &[ColumnRef]) -> Mem<Found>
    requires plain { is_plain (type_view dtype.now) ≡ true }
    requires types { AreOf (type_view dtype.now) columns.now }
    ensures minima { IfOk result (λ f. f.minima.items ≡ map (built_scalar MinStat (type_view dtype.now)) (column_rows columns.now)) }
    ensures maxima { IfOk result (λ f. f.maxima.items ≡ map (built_scalar MaxStat (type_view dtype.now)) (column_rows columns.now)) }
    ensures counts { IfOk result (λ f. f.counts.items ≡ map (built_scalar NullCountStat (type_view dtype.now)) (column_rows columns.now)) }
{
    let mut minima = Vec::with_capacity(alloc, columns.len())?;
    let mut maxima = Vec::with_capacity(alloc, columns.len())?;
    let mut counts = Vec::with_capacity(alloc, columns.len())?;
    for column in columns {
        let (least, greatest) = bounds_of(alloc, column)?;
        minima.push(bound(dtype, least)?)?;
        maxima.push(bound(dtype, greatest)?)?;
        counts.push(null_count(alloc, column)?)?;
    }
    Ok(Found {
        minima,
        maxima,
        counts,
    })
}

/// A bound of a plain field beside the field's type, made nullable.
fn bound(dtype: &DType, value: ScalarValue) -> Mem<Scalar>
    requires { fits (raw_view value) (with_nullability (type_view dtype.now) Nullable) ≡ true }
    ensures { IfOk result (λ s. s ≡ record { ty = with_nullability (type_view dtype.now) Nullable; value = raw_view value }) }
{
    let nullable = dtype.with_nullability(Nullability::Nullable)?;
    Ok(Scalar::new(nullable, value))
}

/// The number of rows at which a column is null, as a statistic holds it.
fn null_count(alloc: Global, column: &ColumnRef) -> Mem<Scalar>
    ensures { IfOk result (λ s. s ≡ record { ty = int_ty U64 Nullable; value = raw_int (pos (null_count column.now.rows)) }) }
{
    let count = nulls_in(alloc, column)?;
    Ok(counted(count))
}

/// At how many rows a column is null.
fn nulls_in(alloc: Global, column: &ColumnRef) -> Mem<usize>
    ensures { IfOk result (λ count. count ≡ null_count column.now.rows) }
{
    if column.dtype().is_primitive() {
        let numbers = column.numbers(alloc)?;
        return Ok(numbers.null_count());
    }
    let nulls = is_null(alloc, column)?;
    Ok(nulls.true_count())
}

/// A count as a statistic holds it.
#[tactic(auto, unfolding(vx_dtype::specs::Fits::fits))]
fn counted(count: usize) -> Scalar
    ensures { result ≡ record { ty = int_ty U64 Nullable; value = raw_int (pos count) } }
{
    let dtype = DType::Primitive(PType::U64, Nullability::Nullable);
    Scalar::new(dtype, ScalarValue::Int(count as i128))
}
