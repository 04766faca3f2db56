// The building of the statistics of a table of numbers in many blocks.
ghost use Rattle.std.specs.Prelude.{◌<◌, ◌^◌, length, IfOk};

use crate::columns::numbers;
use crate::timing::print_since;
use anyhow::{Result, bail};
use std::alloc::Global;
use std::time::Instant;
use vx_column::ColumnRef;
use vx_dtype::Nullability::NonNullable;
use vx_dtype::{DType, FieldName, FieldNames, Mem, PType, Scalar, ScalarValue, StructFields};
use vx_stats::build_stats;
use vx_zones::{ZoneMap, ZoneStat};

/// How many blocks the table has.
const BLOCKS: usize = 1000;

/// Times the building of the statistics of a table of so many numbers, so many times, and prints the sum of the statistics.
pub(crate) fn time(rt: &HostRuntime, kernel: &str, rows: usize, times: usize) -> Result<()> {
    let zones = zones(rt.alloc(), rows / BLOCKS)?;
    let blocks = blocks(rt.alloc(), rows / BLOCKS)?;
    time_table(rt, kernel, times, &zones, blocks.as_slice())
}

/// Times the building of the statistics of a table, so many times, and prints their sum.
fn time_table(
    rt: &HostRuntime,
    kernel: &str,
    times: usize,
    zones: &ZoneMap,
    blocks: &[Vec<ColumnRef>],
) -> Result<()> {
    for _ in 0..times {
        time_call(rt, kernel, zones, blocks)?;
    }
    let built = built(rt.alloc(), zones, blocks)?;
    println!(rt; "answer {}", sum(built.stats(rt.alloc())?.as_slice()))?;
    Ok(())
}

/// Times one building of the statistics of a table.
fn time_call(
    rt: &HostRuntime,
    kernel: &str,
    zones: &ZoneMap,
    blocks: &[Vec<ColumnRef>],
) -> Result<()> {
    let start = Instant::now(rt)?;
    let _built = built(rt.alloc(), zones, blocks)?;
    print_since(rt, kernel, &start)
}

/// The zones of a table with the statistics of its blocks.
fn built(alloc: Global, zones: &ZoneMap, blocks: &[Vec<ColumnRef>]) -> Result<ZoneMap> {
    match build_stats(alloc, zones, blocks) {
        Ok(built) => Ok(built),
        Err(_) => bail!("no statistics"),
    }
}

/// The zones of a table of one column of i64 in blocks of so many rows, without statistics.
fn zones(alloc: Global, rows: usize) -> Result<ZoneMap> {
    let lengths = lengths(alloc, u32::try_from(rows)?)?;
    match ZoneMap::try_new(alloc, fields(alloc)?, lengths, Vec::new(alloc)) {
        Ok(zones) => Ok(zones),
        Err(_) => bail!("no zones"),
    }
}

/// The numbers of rows of the blocks.
fn lengths(alloc: Global, rows: u32) -> Mem<Vec<u32>>
    ensures { IfOk result (λ lengths. length lengths.items < 2 ^ 32) }
{
    Ok(Vec::from_elem(alloc, rows, BLOCKS)?)
}

/// The one column.
fn fields(alloc: Global) -> Mem<StructFields> {
    let names = vec![in alloc; FieldName::new(alloc, "x")?]?;
    let dtypes = vec![in alloc; DType::Primitive(PType::I64, NonNullable)]?;
    StructFields::new(alloc, FieldNames::new(alloc, names)?, dtypes)
}

/// The blocks, of so many rows each.
fn blocks(alloc: Global, rows: usize) -> Result<Vec<Vec<ColumnRef>>> {
    let mut blocks = Vec::with_capacity(alloc, BLOCKS)?;
    for k in 0..BLOCKS {
        blocks.push(vec![in alloc; numbers(alloc, rows, k.wrapping_mul(rows))?]?)?;
    }
    Ok(blocks)
}

/// The sum of the numbers of statistics.
fn sum(stats: &[ZoneStat]) -> i128 {
    let mut sum = 0i128;
    for stat in stats {
        for scalar in stat.values.as_slice() {
            sum = sum.wrapping_add(number_of(scalar));
        }
    }
    sum
}

/// The number of a statistic, 0 where it has none.
fn number_of(scalar: &Scalar) -> i128 {
    match scalar.value() {
        ScalarValue::Int(number) => *number,
        _ => 0,
    }
}
