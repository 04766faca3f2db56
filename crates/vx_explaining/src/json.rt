// An explanation as an object of JSON in a line.
ghost use Rattle.std.specs.Prelude.{◌≡◌, length, map, option_map, IfOk};
ghost use Rattle.std.specs.String.{string_bytes};
ghost use Rattle.vx_dtype.specs.Texts.{quoted_text};
ghost use Rattle.vx_laws_explaining.specs.Explained as explained;
ghost use Rattle.vx_laws_explaining.specs.ExplainedJson as spec;
ghost use Rattle.vx_explaining.specs.ExplainedViews.{column_view, decider_view, explained_view};

use crate::columns::{UsedColumn, is_used, number_of};
use crate::deciders::Decider;
use crate::explained::Explained;
use crate::texts::{number_skipped, pruning_text, query_named};
use crate::values::value_or;
use std::alloc::Global;
use vx_dtype::{Mem, Quoted};
use vx_expr::ExprRef;

/// Texts with a comma between any two.
#[tactic(auto, unfolding(vx_laws_explaining::specs::ExplainedJson::commas))]
fn commas(alloc: Global, texts: &[String]) -> Mem<String>
    ensures { IfOk result (λ text. string_bytes text ≡ spec.commas (map string_bytes texts.now)) }
{
    Ok(texts.join(alloc, ",")?)
}

/// A text within quotes, or null where there is none.
fn quoted_or_null(alloc: Global, text: &Option<String>) -> Mem<String>
    ensures { IfOk result (λ quoted. string_bytes quoted ≡ spec.quoted_or_null (option_map string_bytes text.now)) }
{
    match text {
        Some(text) => Ok(format!(in alloc; "{}", Quoted(text.as_str()))?),
        None => Ok(String::from_str(alloc, "null")?),
    }
}

/// An expression: an object of its compact text and its query.
fn expression_json(alloc: Global, expr: &ExprRef) -> Mem<String>
    ensures { IfOk result (λ text. string_bytes text ≡ spec.expression_json expr.now) }
{
    let text = expr.compact(alloc)?;
    let query = query_named(alloc, expr)?;
    let query = quoted_or_null(alloc, &query)?;
    Ok(format!(in alloc;
        "{{\"expression\":{},\"query\":{query}}}",
        Quoted(text.as_str())
    )?)
}

/// The names of statistics that decide.
fn decider_names(alloc: Global, deciders: &[Decider<'_>]) -> Mem<Vec<String>>
    ensures { IfOk result (λ names. map string_bytes names.items ≡ map (λ d. d.name) (map decider_view deciders.now)) }
{
    let mut names = Vec::new(alloc);
    for decider in deciders {
        names.push(String::from_str(alloc, decider.name.as_str())?)?;
    }
    Ok(names)
}

/// The names of the statistics that decide, with a comma between any two.
fn deciders_json(alloc: Global, deciders: &[Decider<'_>]) -> Mem<String>
    ensures { IfOk result (λ names. string_bytes names ≡ spec.deciders_json (map decider_view deciders.now)) }
{
    commas(alloc, decider_names(alloc, deciders)?.as_slice())
}

/// The members of the filter and of the projection.
fn expressions_json(alloc: Global, filter: &ExprRef, projection: &ExprRef) -> Mem<String>
    ensures { IfOk result (λ members. string_bytes members ≡ spec.expressions_json filter.now projection.now) }
{
    let filter = expression_json(alloc, filter)?;
    let projection = expression_json(alloc, projection)?;
    Ok(format!(in alloc; "{{\"filter\":{filter},\"projection\":{projection}")?)
}

/// The members of the pruning expression and of the statistics that decide.
fn pruning_json(alloc: Global, pruning: &Option<ExprRef>, deciders: &[Decider<'_>]) -> Mem<String>
    ensures { IfOk result (λ members. string_bytes members ≡ spec.pruning_json pruning.now (map decider_view deciders.now)) }
{
    let pruning = pruning_text(alloc, pruning)?;
    let pruning = quoted_or_null(alloc, &pruning)?;
    let names = deciders_json(alloc, deciders)?;
    Ok(format!(in alloc; ",\"pruning\":{pruning},\"statistics\":[{names}")?)
}

/// The names of the columns that are read, within quotes.
fn quoted_names(alloc: Global, columns: &[UsedColumn<'_>]) -> Mem<Vec<String>>
    ensures { IfOk result (λ names. map string_bytes names.items ≡ map quoted_text (explained.read_names (map column_view columns.now))) }
{
    let mut names = Vec::new(alloc);
    for column in columns {
        if is_used(column.usage) {
            names.push(format!(in alloc; "{}", Quoted(column.name.as_str()))?)?;
        }
    }
    Ok(names)
}

/// The members of the columns that are read, and of how many columns there are.
fn columns_json(alloc: Global, columns: &[UsedColumn<'_>]) -> Mem<String>
    ensures { IfOk result (λ members. string_bytes members ≡ spec.columns_json (map column_view columns.now)) }
{
    let names = commas(alloc, quoted_names(alloc, columns)?.as_slice())?;
    let all = number_of(columns);
    Ok(format!(in alloc; "],\"columns\":{{\"read\":[{names}],\"all\":{all}")?)
}

/// The members of how many blocks there are, and how many are skipped.
fn blocks_json(alloc: Global, skipped: &[bool], lengths: &[u32]) -> Mem<String>
    ensures { IfOk result (λ members. string_bytes members ≡ spec.blocks_json skipped.now lengths.now) }
{
    let all = lengths.len();
    let out = number_skipped(skipped);
    Ok(format!(in alloc; "}},\"blocks\":{{\"all\":{all},\"skipped\":{out}}},\"each\":[")?)
}

/// What stands before the objects of the blocks.
pub(crate) fn json_front(alloc: Global, explained: &Explained<'_>) -> Mem<String>
    ensures { IfOk result (λ front. string_bytes front ≡ spec.json_front (explained_view explained.now)) }
{
    let expressions = expressions_json(alloc, &explained.filter, &explained.projection)?;
    let pruning = pruning_json(alloc, &explained.pruning, explained.deciders.as_slice())?;
    let columns = columns_json(alloc, explained.columns.as_slice())?;
    let blocks = blocks_json(alloc, explained.skipped.as_slice(), explained.lengths)?;
    Ok(format!(in alloc; "{expressions}{pruning}{columns}{blocks}")?)
}

/// The name and the value of a statistic in a block, null where it isn't known.
fn bound_json(alloc: Global, decider: &Decider<'_>, block: usize) -> Mem<String>
    ensures { IfOk result (λ bound. string_bytes bound ≡ spec.bound_json block (decider_view decider.now)) }
{
    let value = value_or(alloc, "null", decider.statistic, block)?;
    Ok(format!(in alloc; "{}:{value}", decider.name)?)
}

/// The names and the values of the statistics that decide in a block.
fn bounds_json(alloc: Global, deciders: &[Decider<'_>], block: usize) -> Mem<Vec<String>>
    ensures { IfOk result (λ bounds. map string_bytes bounds.items ≡ map (spec.bound_json block) (map decider_view deciders.now)) }
{
    let mut bounds = Vec::new(alloc);
    for decider in deciders {
        bounds.push(bound_json(alloc, decider, block)?)?;
    }
    Ok(bounds)
}

/// What stands before the object of a block: a comma before each but the first.
fn comma_before(block: usize) -> &'static str
    ensures { result.now ≡ spec.comma_before block }
{
    if block == 0 { "" } else { "," }
}

fn truth_json(truth: bool) -> &'static str
    ensures { result.now ≡ spec.truth_json truth }
{
    if truth { "true" } else { "false" }
}

/// The object of a block: its number, its rows, whether it is skipped, and the values of the statistics that decide.
pub(crate) fn block_json(
    alloc: Global,
    deciders: &[Decider<'_>],
    block: usize,
    rows: u32,
    skipped: bool,
) -> Mem<String>
    ensures { IfOk result (λ object. string_bytes object ≡ spec.block_json (map decider_view deciders.now) block rows skipped) }
{
    let bounds = commas(alloc, bounds_json(alloc, deciders, block)?.as_slice())?;
    let comma = comma_before(block);
    let skipped = truth_json(skipped);
    Ok(format!(in alloc;
        "{comma}{{\"block\":{block},\"rows\":{rows},\"skipped\":{skipped},\"bounds\":{{{bounds}}}}}"
    )?)
}
