// The values of statistics that decide, in a block.
ghost use Rattle.std.specs.Prelude.{◌≡◌, IfOk};
ghost use Rattle.std.specs.String.{string_bytes};
ghost use Rattle.vx_laws_listing.specs.ListingTexts.{known_value, scalar_json};
ghost use Rattle.vx_laws_explaining.specs.ExplainedTexts.{value_or};

use std::alloc::Global;
use vx_display::row_text;
use vx_dtype::{Mem, Scalar};
use vx_zones::ZoneColumn;

/// The value of a statistic in a block, where it is known.
fn known_value(alloc: Global, statistic: &ZoneColumn, block: usize) -> Mem<Option<Scalar>>
    ensures { IfOk result (λ value. value ≡ known_value block statistic.now) }
{
    if block >= statistic.blocks() {
        return Ok(None);
    }
    let value = statistic.scalar_at(alloc, block)?;
    if value.is_null() {
        return Ok(None);
    }
    Ok(Some(value))
}

/// The text of a value.
fn scalar_text(alloc: Global, value: &Scalar) -> Mem<String>
    ensures { IfOk result (λ text. string_bytes text ≡ scalar_json value.now) }
{
    row_text(alloc, value.dtype(), value.value())
}

/// The text of the value of a statistic in a block, or this one where it isn't known.
pub(crate) fn value_or(
    alloc: Global,
    unknown: &str,
    statistic: &ZoneColumn,
    block: usize,
) -> Mem<String>
    ensures { IfOk result (λ text. string_bytes text ≡ value_or unknown.now (known_value block statistic.now)) }
{
    match known_value(alloc, statistic, block)? {
        Some(value) => scalar_text(alloc, &value),
        None => Ok(String::from_str(alloc, unknown)?),
    }
}
