// The statistics that the pruning of a filter needs.
ghost use Rattle.std.specs.Prelude.{◌≡◌, [], None, Option, map, IfOk};
ghost use Rattle.std.specs.List.{filter};
ghost use Rattle.std.specs.String.{string_bytes};
ghost use Rattle.vx_dtype.specs.Types.{Bytes};
ghost use Rattle.vx_passes.specs.PruningTables.{Pruning};
ghost use Rattle.vx_prune.specs.Required.{PrunesBy, is_required};
ghost use Rattle.vx_laws_stats.specs.BuiltLaws.{path_and_stat};
ghost use Rattle.vx_calls.specs.Answers.{told_bytes};
ghost use Rattle.vx_calls.specs.Filters.{IsFilter};
ghost use Rattle.vx_calls.specs.Statistics as spec;
ghost use Rattle.vx_calls.specs.Statistics.{TellsFilterStatistics};
ghost use Rattle.vx_calls.specs.Steps.{needed_view};

use crate::errors::CallError;
use crate::filters::{TypedFilter, typed_filter};
use crate::lists::{list_json, path_json};
use crate::zone_maps::sound;
use std::alloc::Global;
use vx_column::ColumnRef;
use vx_dtype::{FieldPath, Mem, NoMemory, Stat};
use vx_expr::ExprRef;
use vx_prune::{RequiredStats, checked_pruning_expr, is_required};
use vx_stats::{StatsError, build_stats};
use vx_tables::columns_of;
use vx_zones::{ZoneColumn, ZoneMap};

/// A statistic that the pruning of a filter needs.
#[derive(Debug, Drop)]
pub(crate) struct Needed {
    pub(crate) path: FieldPath,
    pub(crate) stat: Stat,
}

/// Zones of the same columns without blocks and statistics.
fn without_blocks(alloc: Global, zones: &ZoneMap) -> Mem<ZoneMap>
    ensures columns { IfOk result (λ made. made.columns ≡ zones.now.columns) }
    ensures lengths { IfOk result (λ made. made.lengths ≡ []) }
{
    let fields = columns_of(zones).clone()?;
    let lengths = Vec::new(alloc);
    let statistics = Vec::new(alloc);
    sound(ZoneMap::try_new(alloc, fields, lengths, statistics))
}

/// Zones of the same columns without blocks, with the statistics that a table of these columns can have.
fn possible_statistics(alloc: Global, zones: &ZoneMap) -> Mem<ZoneMap>
    ensures { IfOk result (λ made. map path_and_stat made.stats ≡ spec.possible_statistics zones.now.columns) }
{
    let empty = without_blocks(alloc, zones)?;
    let blocks: [Vec<ColumnRef>; 0] = [];
    match build_stats(alloc, &empty, &blocks) {
        Ok(built) => Ok(built),
        Err(StatsError::NoMemory) => Err(NoMemory),
        Err(StatsError::WrongLength) => unreachable!(),
        Err(StatsError::WrongType) => unreachable!(),
    }
}

/// Those of statistics that are required.
fn required_among(
    alloc: Global,
    statistics: &[ZoneColumn],
    required: &RequiredStats,
) -> Mem<Vec<Needed>>
    ensures { IfOk result (λ needed. map needed_view needed.items
        ≡ filter (is_required required.now) (map path_and_stat statistics.now)) }
{
    let mut needed = Vec::new(alloc);
    for statistic in statistics {
        if is_required(required, statistic.path(), statistic.stat()) {
            let path = statistic.path().clone()?;
            let stat = statistic.stat();
            needed.push(Needed { path, stat })?;
        }
    }
    Ok(needed)
}

/// Those of statistics that a pruning expression and its making need, where there is one.
fn needed_among(
    alloc: Global,
    statistics: &[ZoneColumn],
    pruning: Option<(ExprRef, RequiredStats)>,
) -> Mem<Vec<Needed>>
    ensures { (told : Option Pruning) → PrunesBy told pruning
        → IfOk result (λ needed. map needed_view needed.items ≡ spec.needed_among (map path_and_stat statistics.now) told) }
{
    match pruning {
        Some((_tree, required)) => required_among(alloc, statistics, &required),
        None => Ok(Vec::new(alloc)),
    }
}

/// The statistics that the pruning of a filter needs, of all that a table of the schema's columns can have.
pub(crate) fn needed_statistics(alloc: Global, typed: &TypedFilter) -> Mem<Vec<Needed>>
    ensures { IfOk result (λ needed. map needed_view needed.items ≡ spec.needed_statistics typed.now.zones.columns typed.now.tree) }
{
    let possible = possible_statistics(alloc, &typed.zones)?;
    let available = possible.available(alloc)?;
    let pruning = checked_pruning_expr(alloc, &typed.tree, &available)?;
    needed_among(alloc, possible.statistics(), pruning)
}

/// A statistic as a text: an object of the names of its path and of its own name.
#[tactic(auto, unfolding(crate::specs::Statistics::statistic_json))]
fn statistic_json(alloc: Global, needed: &Needed) -> Mem<String>
    ensures { IfOk result (λ text. string_bytes text ≡ spec.statistic_json (needed_view needed.now)) }
{
    let path = path_json(alloc, &needed.path)?;
    let name = needed.stat.name();
    Ok(format!(in alloc; "{{\"path\":{path},\"stat\":\"{name}\"}}")?)
}

/// The texts of statistics.
fn statistic_texts(alloc: Global, needed: &[Needed]) -> Mem<Vec<String>>
    ensures { IfOk result (λ texts. map string_bytes texts.items ≡ map spec.statistic_json (map needed_view needed.now)) }
{
    let mut texts = Vec::new(alloc);
    for statistic in needed {
        texts.push(statistic_json(alloc, statistic)?)?;
    }
    Ok(texts)
}

/// The text of the statistics that the pruning of a filter needs.
fn statistics_json(alloc: Global, typed: &TypedFilter) -> Mem<String>
    ensures { IfOk result (λ text. string_bytes text ≡ spec.statistics_json typed.now.zones.columns typed.now.tree) }
{
    let needed = needed_statistics(alloc, typed)?;
    let texts = statistic_texts(alloc, needed.as_slice())?;
    list_json(alloc, texts.as_slice())
}

/// The bytes of the text of the statistics that the pruning of a filter needs.
fn statistics_bytes(alloc: Global, typed: &TypedFilter) -> Result<Vec<u8>, CallError>
    ensures { (schema filter : Bytes) → IsFilter schema filter typed.now.zones.columns typed.now.tree
        → TellsFilterStatistics schema filter (told_bytes result) }
{
    match statistics_json(alloc, typed) {
        Ok(text) => Ok(text.into_bytes()),
        Err(NoMemory) => Err(CallError::NoMemory),
    }
}

/// The statistics by which a filter rules blocks out, as a text of JSON without spaces: a list of objects, each with a `path`, a list of names, and a `stat`,
/// `min`, `max` or `null_count`. Of the statistics that a table of the schema's columns can have, the minimum, the maximum and the number of nulls of each
/// plain field in this order, they are those that the filter's pruning needs; none where nothing can be ruled out.
///
/// Refused as [`filter_columns`](crate::filter_columns).
pub fn filter_statistics(alloc: Global, schema: &[u8], filter: &[u8]) -> Result<Vec<u8>, CallError>
    ensures { TellsFilterStatistics schema.now filter.now (told_bytes result) }
{
    match typed_filter(alloc, schema, filter) {
        Ok(typed) => statistics_bytes(alloc, &typed),
        Err(error) => Err(error),
    }
}
