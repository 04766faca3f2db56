// The lines of an explanation on pruning.
ghost use Rattle.std.specs.Prelude.{◌≡◌, map, Option, IfOk};
ghost use Rattle.std.specs.List.{filter};
ghost use Rattle.std.specs.String.{string_bytes};
ghost use Rattle.vx_dtype.specs.Texts.{quoted_text};
ghost use Rattle.vx_semantics.specs.Tables.{joined_name};
ghost use Rattle.vx_display.specs.Spaced.{spaced};
ghost use Rattle.vx_passes.specs.PruningTables.{Pruning};
ghost use Rattle.vx_prune.specs.Required.{PrunesBy, is_required};
ghost use Rattle.vx_explain.specs.Explanations.{pruning_text, required_names};

use std::alloc::Global;
use vx_display::spaced;
use vx_dtype::{Mem, Quoted};
use vx_expr::ExprRef;
use vx_prune::{RequiredStats, is_required};
use vx_zones::ZoneColumn;

/// The compact text of a pruning expression, or `-` where there is none.
pub(crate) fn pruning_text(alloc: Global, pruning: &Option<(ExprRef, RequiredStats)>) -> Mem<String>
    ensures { (told : Option Pruning) → PrunesBy told pruning.now → IfOk result (λ text. string_bytes text ≡ pruning_text told) }
{
    match pruning {
        Some((expr, _)) => expr.compact(alloc),
        None => Ok(String::from_str(alloc, "-")?),
    }
}

/// The quoted joined names of those of these statistics that a pruning expression needs, with a space between, or `-` where it needs
/// none or there is none.
pub(crate) fn required_text(
    alloc: Global,
    stats: &[ZoneColumn],
    pruning: &Option<(ExprRef, RequiredStats)>,
) -> Mem<String>
    ensures { (told : Option Pruning) → PrunesBy told pruning.now
        → IfOk result (λ text. string_bytes text ≡ spaced (required_names stats.now told)) }
{
    match pruning {
        Some((_, required)) => spaced(alloc, needed_names(alloc, stats, required)?.as_slice()),
        None => spaced(alloc, &[]),
    }
}

/// The quoted joined names of those of these statistics that are required.
fn needed_names(alloc: Global, stats: &[ZoneColumn], required: &RequiredStats) -> Mem<Vec<String>>
    ensures { IfOk result (λ names. map string_bytes names.items
        ≡ map (λ z. quoted_text (joined_name z.path z.stat)) (filter (λ z. is_required required.now (z.path, z.stat)) stats.now)) }
{
    let mut names = Vec::new(alloc);
    for stat in stats {
        if is_required(required, stat.path(), stat.stat()) {
            names.push(quoted_name(alloc, stat)?)?;
        }
    }
    Ok(names)
}

/// The joined name of a statistic, quoted.
fn quoted_name(alloc: Global, stat: &ZoneColumn) -> Mem<String>
    ensures { IfOk result (λ text. string_bytes text ≡ quoted_text (joined_name stat.now.path stat.now.stat)) }
{
    Ok(format!(in alloc; "{}", Quoted(stat.name().as_str()))?)
}
