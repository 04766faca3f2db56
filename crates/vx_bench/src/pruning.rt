// Pruning of many blocks beside the column calls that it needs.
ghost use Rattle.std.specs.Prelude.{◌≡◌, ◌<◌, ◌^◌, Ok, length};
ghost use Rattle.vx_dtype.specs.TypeViews.{type_view};
ghost use Rattle.vx_semantics.specs.Tables.{row_type};
ghost use Rattle.vx_semantics.specs.Typing.{typed_of};

use crate::kernels::Constant::{Number, Text};
use crate::kernels::{Constant, compared, either};
use crate::opening::{Opened, fields};
use crate::timing::{ROUNDS, print_since};
use anyhow::{Result, bail};
use std::alloc::Global;
use std::time::Instant;
use vx_block_pruning::ruled_out;
use vx_column::ColumnRef;
use vx_dtype::{CompareOperator, DType, Mem, Scalar};
use vx_eval::{ExprEval, slots_fit};
use vx_expr::ExprRef;
use vx_zones::{Scalars, ZoneColumn, ZoneMap, ZoneStat};

/// How many blocks a block of the request stands for: no request has many.
const COPIES: u32 = 1000;

/// Times the filter's pruning of the blocks, whose statistics are the bounds of `x` and those of `y`, and the column calls of
/// `(10i64 < $.x < 20i64) and ($.y = "a")`.
pub(crate) fn time(rt: &HostRuntime, opened: &Opened) -> Result<()> {
    let zones = many(rt.alloc(), &opened.request.zones)?;
    for _ in 0..ROUNDS {
        time_filter(rt, &zones, &opened.filter)?;
        time_calls(rt, &zones)?;
    }
    Ok(())
}

/// Times the pruning by a filter.
fn time_filter(rt: &HostRuntime, zones: &ZoneMap, filter: &ExprRef) -> Result<()> {
    let dtype = filter.typed(rt.alloc(), zones.dtype())?;
    time_typed(rt, zones, filter, &dtype)
}

/// The same for a filter of this type.
fn time_typed(rt: &HostRuntime, zones: &ZoneMap, filter: &ExprRef, dtype: &DType) -> Result<()>
    requires { typed_of (row_type zones.now.columns) filter.now ≡ Ok (type_view dtype.now) }
{
    let fit = slots_fit(rt.alloc(), &[], filter)?;
    if !fit {
        bail!("slots")
    }
    let start = Instant::now(rt)?;
    let _flags = ruled_out(rt.alloc(), zones, filter, &[])?;
    print_since(rt, "prune", &start)
}

/// The zones of as many blocks as those of the request stand for.
fn many(alloc: Global, zones: &ZoneMap) -> Result<ZoneMap> {
    let lengths = many_lengths(alloc, zones.lengths())?;
    if lengths.len() > 16_777_216 {
        bail!("too many blocks")
    }
    zones_of(alloc, zones, lengths)
}

/// The zones of blocks of these lengths, the statistics of others again and again.
fn zones_of(alloc: Global, zones: &ZoneMap, lengths: Vec<u32>) -> Result<ZoneMap>
    requires { length lengths.items < 2 ^ 32 }
{
    let columns = fields(zones.dtype())?.clone()?;
    let stats = many_stats(alloc, zones.stats(alloc)?.as_slice())?;
    match ZoneMap::try_new(alloc, columns, lengths, stats) {
        Ok(zones) => Ok(zones),
        Err(_) => bail!("no zones"),
    }
}

/// The numbers of rows, again and again.
fn many_lengths(alloc: Global, lengths: &[u32]) -> Mem<Vec<u32>> {
    let mut made = Vec::new(alloc);
    for _ in 0..COPIES {
        made.extend_from_slice(lengths)?;
    }
    Ok(made)
}

/// The statistics, the values of each again and again.
fn many_stats(alloc: Global, stats: &[ZoneStat]) -> Mem<Vec<ZoneStat>> {
    let mut made = Vec::new(alloc);
    for stat in stats {
        made.push(many_of(alloc, stat)?)?;
    }
    Ok(made)
}

/// A statistic, its values again and again.
fn many_of(alloc: Global, stat: &ZoneStat) -> Mem<ZoneStat> {
    let path = stat.path.clone()?;
    Ok(ZoneStat {
        path,
        stat: stat.stat,
        values: many_values(alloc, stat.values.as_slice())?,
    })
}

/// The values of a statistic, again and again.
fn many_values(alloc: Global, values: &[Scalar]) -> Mem<Scalars> {
    let mut made = Vec::new(alloc);
    for _ in 0..COPIES {
        for value in values {
            made.push(value.clone()?)?;
        }
    }
    Ok(Scalars::new(made))
}

/// Times the column calls: a comparison of each statistic with a constant, and these joined.
fn time_calls(rt: &HostRuntime, zones: &ZoneMap) -> Result<()> {
    let start = Instant::now(rt)?;
    let _column = outside(rt.alloc(), zones)?;
    print_since(rt, "prune_calls", &start)
}

/// Where `x` isn't between 10 and 20, or `y` isn't `a`.
fn outside(alloc: Global, zones: &ZoneMap) -> Result<ColumnRef> {
    let [x_min, x_max, y_min, y_max] = zones.statistics() else {
        bail!("not four statistics")
    };
    let x = other_number(alloc, x_min, x_max)?;
    either(alloc, &x, &other_text(alloc, y_min, y_max)?)
}

/// Where `x` isn't between 10 and 20.
fn other_number(alloc: Global, least: &ZoneColumn, greatest: &ZoneColumn) -> Result<ColumnRef> {
    let below = bound(alloc, greatest, CompareOperator::Lte, Number(10))?;
    let above = bound(alloc, least, CompareOperator::Gte, Number(20))?;
    either(alloc, &below, &above)
}

/// Where `y` isn't `a`.
fn other_text(alloc: Global, least: &ZoneColumn, greatest: &ZoneColumn) -> Result<ColumnRef> {
    let above = bound(alloc, least, CompareOperator::Gt, Text("a"))?;
    let below = bound(alloc, greatest, CompareOperator::Lt, Text("a"))?;
    either(alloc, &above, &below)
}

/// How a statistic compares with a constant.
fn bound(
    alloc: Global,
    stat: &ZoneColumn,
    operator: CompareOperator,
    constant: Constant,
) -> Result<ColumnRef> {
    compared(alloc, stat.values(), operator, constant)
}
