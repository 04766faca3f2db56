// The statistics of a block that are known, as a request writes them.
ghost use Rattle.std.specs.Prelude.{◌≡◌, [], ◌++◌, map, IfOk, OnOk};
ghost use Rattle.std.specs.String.{string_bytes};
ghost use Rattle.vx_dtype.specs.PathViews.{part_name};
ghost use Rattle.vx_dtype.specs.Texts.{quoted_text};
ghost use Rattle.vx_laws_listing.specs.ListingTexts.{kind_json, known_in, known_value, scalar_json, stat_json, with_commas};
ghost use Rattle.vx_listing.specs.StatViews.{known_view};

use std::alloc::Global;
use std::fmt::Write;
use vx_display::push_row;
use vx_dtype::{Field, FieldPath, Mem, Quoted, Scalar, Stat};
use vx_zones::ZoneColumn;

/// A statistic of a block whose value is known.
#[derive(Debug, Drop)]
pub(crate) struct KnownStat<'z> {
    pub(crate) statistic: &'z ZoneColumn,
    pub(crate) value: Scalar,
}

/// The value of a statistic in a block, where it is known.
fn known_value(alloc: Global, statistic: &ZoneColumn, block: usize) -> Mem<Option<Scalar>>
    ensures { IfOk result (λ value. value ≡ known_value block statistic.now) }
{
    if block >= statistic.blocks() {
        return Ok(None);
    }
    let value = statistic.scalar_at(alloc, block)?;
    if value.is_null() {
        return Ok(None);
    }
    Ok(Some(value))
}

/// The statistics of a block that are known, in their order.
pub(crate) fn known_in<'z>(
    alloc: Global,
    block: usize,
    statistics: &'z [ZoneColumn],
) -> Mem<Vec<KnownStat<'z>>>
    ensures { IfOk result (λ known. map known_view known.items ≡ known_in block statistics.now) }
{
    let mut known = Vec::new(alloc);
    for statistic in statistics {
        if let Some(value) = known_value(alloc, statistic, block)? {
            known.push(KnownStat { statistic, value })?;
        }
    }
    Ok(known)
}

/// Writes the names of a path at the end, as far as there is memory: each within quotes, with a comma between any two.
fn push_names(out: &mut String, parts: &[Field]) -> Mem<()>
    ensures { OnOk result (string_bytes out.new ≡ string_bytes out.old ++ with_commas quoted_text [] (map part_name parts.now)) }
{
    let mut separator = "";
    for i in 0..parts.len() {
        out.push_str(separator)?;
        push_part(out, &parts[i])?;
        separator = ",";
    }
    Ok(())
}

/// Writes a name of a path at the end, as far as there is memory.
fn push_part(out: &mut String, part: &Field) -> Mem<()>
    ensures { OnOk result (string_bytes out.new ≡ string_bytes out.old ++ quoted_text (part_name part.now)) }
{
    let Field::Name(name) = part;
    Ok(write!(out, "{}", Quoted(name.as_str()))?)
}

/// Writes the names of a path at the end, as far as there is memory.
fn push_path(out: &mut String, path: &FieldPath) -> Mem<()>
    ensures { OnOk result (string_bytes out.new ≡ string_bytes out.old ++ with_commas quoted_text [] path.now) }
{
    Ok(push_names(out, path.parts())?)
}

/// Writes what stands between the path of a statistic and its value at the end, as far as there is memory: its kind.
fn push_kind(out: &mut String, stat: Stat) -> Mem<()>
    ensures { OnOk result (string_bytes out.new ≡ string_bytes out.old ++ kind_json stat) }
{
    out.push_str("],\"stat\":\"")?;
    out.push_str(stat.name())?;
    Ok(out.push_str("\",\"values\":[")?)
}

/// Writes the value of a statistic at the end, as far as there is memory.
fn push_scalar(out: &mut String, scalar: &Scalar) -> Mem<()>
    ensures { OnOk result (string_bytes out.new ≡ string_bytes out.old ++ scalar_json scalar.now) }
{
    Ok(push_row(out, scalar.dtype(), scalar.value())?)
}

/// Writes a statistic at the end, as far as there is memory: an object of its path, its kind, and its value as the only one.
fn push_statistic(out: &mut String, known: &KnownStat<'_>) -> Mem<()>
    ensures { OnOk result (string_bytes out.new ≡ string_bytes out.old ++ stat_json (known_view known.now)) }
{
    out.push_str("{\"path\":[")?;
    push_path(out, known.statistic.path())?;
    push_kind(out, known.statistic.stat())?;
    push_scalar(out, &known.value)?;
    Ok(out.push_str("]}")?)
}

/// Writes statistics at the end, as far as there is memory, with a comma between any two.
pub(crate) fn push_statistics(out: &mut String, known: &[KnownStat<'_>]) -> Mem<()>
    ensures { OnOk result (string_bytes out.new ≡ string_bytes out.old ++ with_commas stat_json [] (map known_view known.now)) }
{
    let mut separator = "";
    for i in 0..known.len() {
        out.push_str(separator)?;
        push_statistic(out, &known[i])?;
        separator = ",";
    }
    Ok(())
}
