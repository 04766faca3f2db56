// What the statistics of a case's table rule out.
ghost use Rattle.std.specs.Prelude.{◌≡◌, Ok};
ghost use Rattle.vx_dtype.specs.TypeViews.{type_view};
ghost use Rattle.vx_semantics.specs.Tables.{row_type};
ghost use Rattle.vx_semantics.specs.Typing.{typed_of};

use crate::opening::Opened;
use std::alloc::Global;
use vx_block_pruning::ruled_out;
use vx_dtype::{DType, Mem};
use vx_eval::{ExprEval, slots_fit};
use vx_expr::{DisplayAs, ExprRef};
use vx_prune::{RequiredStats, checked_pruning_expr, is_required};
use vx_zones::{ZoneColumn, ZoneMap};

/// The pruning expression of the filter over the available statistics, or `-`.
pub(crate) fn pruning(alloc: Global, case: &Opened) -> Mem<String> {
    let available = case.zones.available(alloc)?;
    match checked_pruning_expr(alloc, &case.filter, &available)? {
        Some((pruning, _required)) => pruning.compact(alloc),
        None => Ok(String::from_str(alloc, "-")?),
    }
}

/// The joined names of the statistics that the pruning expression needs, in the order of the statistics, each ended by `;`.
pub(crate) fn required(alloc: Global, case: &Opened) -> Mem<String> {
    let available = case.zones.available(alloc)?;
    match checked_pruning_expr(alloc, &case.filter, &available)? {
        Some((_pruning, required)) => required_names(alloc, case.zones.statistics(), &required),
        None => Ok(String::new(alloc)),
    }
}

/// The joined names of those statistics that are required, each ended by `;`.
fn required_names(alloc: Global, stats: &[ZoneColumn], required: &RequiredStats) -> Mem<String> {
    let mut text = String::new(alloc);
    for stat in stats {
        if is_required(required, stat.path(), stat.stat()) {
            text.push_str(stat.name().as_str())?;
            text.push_str(";")?;
        }
    }
    Ok(text)
}

/// The numbers of the blocks that the filter rules out, each ended by `;`, or the refusal of the filter's typing.
pub(crate) fn ruled_out_blocks(alloc: Global, case: &Opened) -> Mem<String> {
    match case.filter.typed(alloc, case.zones.dtype()) {
        Ok(dtype) => blocks_of(alloc, &case.zones, &case.filter, &dtype),
        Err(error) => Ok(format!(in alloc; "{error}")?),
    }
}

/// The same for a filter of this type.
fn blocks_of(alloc: Global, zones: &ZoneMap, filter: &ExprRef, dtype: &DType) -> Mem<String>
    requires { typed_of (row_type zones.now.columns) filter.now ≡ Ok (type_view dtype.now) }
{
    let fit = slots_fit(alloc, &[], filter)?;
    if !fit {
        return Ok(String::from_str(alloc, "TypeMismatch")?);
    }
    let flags = ruled_out(alloc, zones, filter, &[])?;
    numbers_of(alloc, flags.as_slice())
}

/// The places of what is true, each ended by `;`.
fn numbers_of(alloc: Global, flags: &[bool]) -> Mem<String> {
    let mut text = String::new(alloc);
    for (block, out) in flags.iter().enumerate() {
        if *out {
            text.push_str(format!(in alloc; "{block};")?.as_str())?;
        }
    }
    Ok(text)
}
