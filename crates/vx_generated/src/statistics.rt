// The statistics of the generated table.
ghost use Rattle.std.specs.Prelude.{◌≡◌, true, map, Ok, IfOk, IfErr};
ghost use Rattle.vx_dtype.specs.Fits.{fits};
ghost use Rattle.vx_dtype.specs.TypeViews.{type_view};
ghost use Rattle.vx_zones.specs.ZoneViews.{stat_view};
ghost use Rattle.vx_zones.specs.declared.errors.ZoneError.TheVariants.{NoMemory as OutOfMemory};
ghost use Rattle.vx_laws_generated.specs.GeneratedTable.{block_length, block_numbers, bound_in, bound_value, bounds_of, generated_columns, generated_zones};
ghost use Rattle.vx_generated.specs.GeneratedViews.{column_view};

use crate::numbers::{Column, block_count, block_length, bound_of, numbers_in};
use std::alloc::Global;
use vx_dtype::{
    DType, FieldName, FieldNames, FieldPath, Mem, NoMemory, Nullability, PType, Scalar,
    ScalarValue, Stat, StructFields,
};
use vx_zones::{Scalars, ZoneError, ZoneMap, ZoneStat};

/// The statistics of the table of this many rows.
pub(crate) fn zones(alloc: Global, rows: u32) -> Mem<ZoneMap>
    ensures { IfOk result (λ zones. zones ≡ generated_zones rows) }
{
    let columns = columns(alloc)?;
    let lengths = lengths(alloc, rows)?;
    let stats = statistics(alloc, rows)?;
    made(ZoneMap::try_new(alloc, columns, lengths, stats))
}

/// The statistics that were made, where nothing but want of memory can be in the way.
fn made(answer: Result<ZoneMap, ZoneError>) -> Mem<ZoneMap>
    requires { IfErr answer (λ e. e ≡ OutOfMemory) }
    ensures { IfOk result (λ zones. answer ≡ Ok zones) }
{
    match answer {
        Ok(zones) => Ok(zones),
        Err(ZoneError::NoMemory) => Err(NoMemory),
        Err(ZoneError::DuplicateName) => unreachable!(),
        Err(ZoneError::DeepType) => unreachable!(),
        Err(ZoneError::BadStatPath) => unreachable!(),
        Err(ZoneError::DuplicateStat) => unreachable!(),
        Err(ZoneError::WrongStatCount) => unreachable!(),
        Err(ZoneError::WrongStatType) => unreachable!(),
    }
}

/// The columns of the table.
fn columns(alloc: Global) -> Mem<StructFields>
    ensures { IfOk result (λ fields. fields ≡ generated_columns) }
{
    let mut names = Vec::with_capacity(alloc, 2)?;
    names.push(FieldName::new(alloc, Column::Id.name())?)?;
    names.push(FieldName::new(alloc, Column::V.name())?)?;
    let mut dtypes = Vec::with_capacity(alloc, 2)?;
    dtypes.push(DType::Primitive(Column::Id.integer(), Column::Id.nullability()))?;
    dtypes.push(DType::Primitive(Column::V.integer(), Column::V.nullability()))?;
    StructFields::new(alloc, FieldNames::new(alloc, names)?, dtypes)
}

/// The number of rows of each block.
fn lengths(alloc: Global, rows: u32) -> Mem<Vec<u32>>
    ensures { IfOk result (λ lengths. lengths.items ≡ map (block_length rows) (block_numbers rows)) }
{
    let blocks = block_count(rows);
    let mut lengths = Vec::with_capacity(alloc, blocks as usize)?;
    for block in 0..blocks {
        lengths.push(block_length(rows, block))?;
    }
    Ok(lengths)
}

/// The statistics in order: of each column the least and the greatest number in each block.
fn statistics(alloc: Global, rows: u32) -> Mem<Vec<ZoneStat>>
    ensures { IfOk result (λ stats. map stat_view stats.items ≡ (generated_zones rows).stats) }
{
    let mut stats = Vec::with_capacity(alloc, 4)?;
    stats.push(bounds_of(alloc, rows, Column::Id, Stat::Min)?)?;
    stats.push(bounds_of(alloc, rows, Column::Id, Stat::Max)?)?;
    stats.push(bounds_of(alloc, rows, Column::V, Stat::Min)?)?;
    stats.push(bounds_of(alloc, rows, Column::V, Stat::Max)?)?;
    Ok(stats)
}

/// The bounds of one kind of a column, block by block.
fn bounds_of(alloc: Global, rows: u32, column: Column, stat: Stat) -> Mem<ZoneStat>
    ensures { IfOk result (λ bounds. stat_view bounds ≡ bounds_of rows (column_view column) stat) }
{
    let name = FieldName::new(alloc, column.name())?;
    Ok(ZoneStat {
        path: FieldPath::from_name(alloc, name)?,
        stat,
        values: Scalars::new(bounds_in(alloc, rows, column, stat)?),
    })
}

/// The values of these bounds.
fn bounds_in(alloc: Global, rows: u32, column: Column, stat: Stat) -> Mem<Vec<Scalar>>
    ensures { IfOk result (λ values. values.items ≡ map (bound_in (column_view column) stat rows) (block_numbers rows)) }
{
    let blocks = block_count(rows);
    let mut values = Vec::with_capacity(alloc, blocks as usize)?;
    for block in 0..blocks {
        let numbers = numbers_in(alloc, column, rows, block)?;
        let bound = bound_of(stat, numbers.as_slice());
        values.push(bound_value(column.integer(), bound))?;
    }
    Ok(values)
}

/// A bound as a value of an integer type, nullable, null where there is none.
fn bound_value(integer: PType, bound: Option<u64>) -> Scalar
    requires { fits (bound_value integer bound).value (bound_value integer bound).ty ≡ true }
    ensures { result ≡ bound_value integer bound }
{
    let dtype = DType::Primitive(integer, Nullability::Nullable);
    match bound {
        Some(number) => Scalar::new(dtype, ScalarValue::Int(number as i128)),
        None => Scalar::null(dtype),
    }
}
