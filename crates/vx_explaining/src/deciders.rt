// The pruning expression of a filter, and the statistics that decide which blocks are skipped.
ghost use Rattle.std.specs.Prelude.{◌≡◌, length, map, Option, option_map, IfOk};
ghost use Rattle.std.specs.List.{filter};
ghost use Rattle.std.specs.String.{string_bytes};
ghost use Rattle.vx_dtype.specs.Texts.{quoted_text};
ghost use Rattle.vx_passes.specs.PruningTables.{Pruning};
ghost use Rattle.vx_prune.specs.Required.{PrunesBy, is_required};
ghost use Rattle.vx_semantics.specs.Tables.{joined_name};
ghost use Rattle.vx_laws_explaining.specs.Explained as spec;
ghost use Rattle.vx_explaining.specs.ExplainedViews.{decider_view};
ghost use Rattle.vx_explaining.specs.ExplainedParts.{HoldsPruning};

use std::alloc::Global;
use vx_dtype::{Mem, Quoted};
use vx_expr::ExprRef;
use vx_prune::{RequiredStats, checked_pruning_expr, is_required};
use vx_zones::{ZoneColumn, ZoneMap};

/// A statistic that decides which blocks are skipped, with its joined name within quotes.
#[derive(Debug, Drop)]
pub(crate) struct Decider<'z> {
    pub(crate) name: String,
    pub(crate) statistic: &'z ZoneColumn,
}

/// The pruning expression of a filter, where there is one, and the statistics that it needs.
#[derive(Debug, Drop)]
pub(crate) struct Pruned<'z> {
    pub(crate) tree: Option<ExprRef>,
    pub(crate) deciders: Vec<Decider<'z>>,
}

/// The joined name of a statistic within quotes.
fn quoted_name(alloc: Global, statistic: &ZoneColumn) -> Mem<String>
    ensures { IfOk result (λ name. string_bytes name ≡ quoted_text (joined_name statistic.now.path statistic.now.stat)) }
{
    Ok(format!(in alloc; "{}", Quoted(statistic.name().as_str()))?)
}

/// A statistic that decides.
fn decider_of<'z>(alloc: Global, statistic: &'z ZoneColumn) -> Mem<Decider<'z>>
    ensures { IfOk result (λ made. decider_view made ≡ spec.decider statistic.now) }
{
    let name = quoted_name(alloc, statistic)?;
    Ok(Decider { name, statistic })
}

/// Those of these statistics that are required.
fn deciders_of<'z>(
    alloc: Global,
    statistics: &'z [ZoneColumn],
    required: &RequiredStats,
) -> Mem<Vec<Decider<'z>>>
    ensures { IfOk result (λ deciders. map decider_view deciders.items
        ≡ map spec.decider (filter (λ z. is_required required.now (z.path, z.stat)) statistics.now)) }
{
    let mut deciders = Vec::new(alloc);
    for statistic in statistics {
        if is_required(required, statistic.path(), statistic.stat()) {
            deciders.push(decider_of(alloc, statistic)?)?;
        }
    }
    Ok(deciders)
}

/// How many statistics decide.
pub(crate) fn number_of_deciders(deciders: &[Decider<'_>]) -> usize
    ensures { result ≡ length (map decider_view deciders.now) }
{
    deciders.len()
}

/// A pruning expression, where there is one, with those of these statistics that it needs.
fn pruned_with<'z>(
    alloc: Global,
    statistics: &'z [ZoneColumn],
    pruning: Option<(ExprRef, RequiredStats)>,
) -> Mem<Pruned<'z>>
    ensures { (told : Option Pruning) → PrunesBy told pruning → IfOk result (HoldsPruning statistics.now told) }
{
    match pruning {
        Some((tree, required)) => {
            let deciders = deciders_of(alloc, statistics, &required)?;
            Ok(Pruned {
                tree: Some(tree),
                deciders,
            })
        }
        None => Ok(Pruned {
            tree: None,
            deciders: Vec::new(alloc),
        }),
    }
}

/// The pruning expression of a filter over the statistics of a table, and those of them that it needs.
pub(crate) fn pruned_over<'z>(
    alloc: Global,
    zones: &'z ZoneMap,
    filter: &ExprRef,
) -> Mem<Pruned<'z>>
    ensures { IfOk result (HoldsPruning zones.now.stats (spec.pruning_of zones.now filter.now)) }
{
    let available = zones.available(alloc)?;
    let pruning = checked_pruning_expr(alloc, filter, &available)?;
    pruned_with(alloc, zones.statistics(), pruning)
}
