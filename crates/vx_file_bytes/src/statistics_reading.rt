// The statistics of a table, read of a header.
ghost use Rattle.std.specs.Prelude.{◌≡◌, true, map, IfOk, option_map};
ghost use Rattle.vx_dtype.specs.Fits.{fits};
ghost use Rattle.vx_dtype.specs.RawViews.{raw_view};
ghost use Rattle.vx_dtype.specs.ScalarAnswers.{typed};
ghost use Rattle.vx_dtype.specs.TypeViews.{type_view};
ghost use Rattle.vx_wire_bytes.specs.Reading.{text_at};
ghost use Rattle.vx_zones.specs.LeafTypes.{plain_from};
ghost use Rattle.vx_zones.specs.ZoneViews.{stat_view};
ghost use Rattle.vx_laws_file.specs.HeaderReading.{items_with, counted_with, stat_numbered, stat_at, scalar_at, statistic_by, statistic_at};

use crate::fronts::{names_front, number_front, value_front};
use std::alloc::Global;
use vx_dtype::{DType, FieldPath, Mem, Nullability, Scalar, ScalarValue, Stat, StructFields};
use vx_zones::{Scalars, ZoneStat, type_of_values};

/// The path at the front: its names, with their number before them.
#[tactic(auto, unfolding(vx_laws_file::specs::HeaderReading::counted_with))]
fn path_front(alloc: Global, bytes: &[u8]) -> Mem<Option<(FieldPath, &[u8])>>
    ensures { IfOk result (λ found. option_map (λ x. (x.0, x.1.now)) found ≡ counted_with text_at bytes.now) }
{
    let Some((number, rest)) = number_front(bytes) else {
        return Ok(None);
    };
    let Some((names, rest)) = names_front(alloc, number, rest)? else {
        return Ok(None);
    };
    Ok(Some((FieldPath::from_names(alloc, names)?, rest)))
}

/// The kind of statistic of a byte.
fn stat_numbered(byte: u8) -> Option<Stat>
    ensures { result ≡ stat_numbered byte }
{
    match byte {
        0 => Some(Stat::Min),
        1 => Some(Stat::Max),
        2 => Some(Stat::NullCount),
        3 => Some(Stat::NaNCount),
        _ => None,
    }
}

/// The kind of statistic at the front.
#[tactic(auto, unfolding(vx_laws_file::specs::HeaderReading::stat_at))]
fn stat_front(bytes: &[u8]) -> Option<(Stat, &[u8])>
    ensures { option_map (λ x. (x.0, x.1.now)) result ≡ stat_at bytes.now }
{
    match bytes {
        [] => None,
        [byte, rest @ ..] => {
            let stat = stat_numbered(*byte)?;
            Some((stat, rest))
        }
    }
}

/// A value beside its type.
fn scalar_of(dtype: &DType, value: ScalarValue) -> Mem<Scalar>
    requires { fits (raw_view value) (type_view dtype.now) ≡ true }
    ensures { IfOk result (λ s. s ≡ typed (type_view dtype.now) (raw_view value)) }
{
    Ok(Scalar::new(dtype.clone()?, value))
}

/// So many values of a statistic at the front, of this type.
fn scalars_front<'a>(
    alloc: Global,
    dtype: &DType,
    number: usize,
    bytes: &'a [u8],
) -> Mem<Option<(Vec<Scalar>, &'a [u8])>>
    ensures { IfOk result (λ found. option_map (λ x. (x.0.items, x.1.now)) found ≡ items_with (scalar_at (type_view dtype.now)) number bytes.now) }
{
    let mut rest = bytes;
    let mut scalars: Vec<Scalar> = Vec::new(alloc);
    for _ in 0..number {
        let Some((value, after)) = value_front(alloc, dtype, rest)? else {
            return Ok(None);
        };
        scalars.push(scalar_of(dtype, value)?)?;
        rest = after;
    }
    Ok(Some((scalars, rest)))
}

/// The statistic at the front, of a table with rows of this type and with these lengths of blocks.
#[tactic(auto, unfolding(vx_laws_file::specs::HeaderReading::statistic_by, vx_laws_file::specs::HeaderReading::scalars_with))]
fn statistic_front<'a>(
    alloc: Global,
    row: &DType,
    lengths: &[u32],
    bytes: &'a [u8],
) -> Mem<Option<(ZoneStat, &'a [u8])>>
    ensures { IfOk result (λ found. option_map (λ x. (stat_view x.0, x.1.now)) found ≡ statistic_by (plain_from (type_view row.now)) lengths.now bytes.now) }
{
    let Some((path, rest)) = path_front(alloc, bytes)? else {
        return Ok(None);
    };
    let Some((stat, rest)) = stat_front(rest) else {
        return Ok(None);
    };
    let Some(dtype) = type_of_values(row, &path, stat)? else {
        return Ok(None);
    };
    let Some((values, rest)) = scalars_front(alloc, &dtype, lengths.len(), rest)? else {
        return Ok(None);
    };
    let values = Scalars::new(values);
    Ok(Some((ZoneStat { path, stat, values }, rest)))
}

/// So many statistics at the front.
fn some_statistics<'a>(
    alloc: Global,
    row: &DType,
    lengths: &[u32],
    number: u32,
    bytes: &'a [u8],
) -> Mem<Option<(Vec<ZoneStat>, &'a [u8])>>
    ensures { IfOk result (λ found. option_map (λ x. (map stat_view x.0.items, x.1.now)) found
        ≡ items_with (statistic_by (plain_from (type_view row.now)) lengths.now) number bytes.now) }
{
    let mut rest = bytes;
    let mut stats: Vec<ZoneStat> = Vec::new(alloc);
    for _ in 0..number {
        let Some((stat, after)) = statistic_front(alloc, row, lengths, rest)? else {
            return Ok(None);
        };
        stats.push(stat)?;
        rest = after;
    }
    Ok(Some((stats, rest)))
}

/// The statistics at the front, with their number before them, of a table with these columns and these lengths of blocks.
#[tactic(auto, unfolding(vx_laws_file::specs::HeaderReading::counted_with))]
pub(crate) fn statistics_front<'a>(
    alloc: Global,
    columns: &StructFields,
    lengths: &[u32],
    bytes: &'a [u8],
) -> Mem<Option<(Vec<ZoneStat>, &'a [u8])>>
    ensures { IfOk result (λ found. option_map (λ x. (map stat_view x.0.items, x.1.now)) found
        ≡ counted_with (statistic_at columns.now lengths.now) bytes.now) }
{
    let Some((number, rest)) = number_front(bytes) else {
        return Ok(None);
    };
    let row = DType::Struct(columns.clone()?, Nullability::NonNullable);
    some_statistics(alloc, &row, lengths, number, rest)
}
