// The explanation of a filter and a projection.
ghost use Rattle.std.specs.Prelude.{◌≡◌, [], ◌++◌, codes, IfOk};
ghost use Rattle.std.specs.String.{string_bytes};
ghost use Rattle.vx_partition.specs.Splits.{split_view};
ghost use Rattle.vx_partition.specs.SplitTexts.{split_text};
ghost use Rattle.vx_wire.specs.Registries.{registered};
ghost use Rattle.vx_scan.specs.Opening.{ArePrepared};
ghost use Rattle.vx_explain.specs.Explanations.{explain_text, explanation_lines, labelled};
ghost use Rattle.vx_explain.specs.Explaining.{Explains};

use crate::pruning::{pruning_text, required_text};
use std::alloc::Global;
use vx_dtype::{FieldName, Mem, Scalar};
use vx_expr::ExprRef;
use vx_partition::PartitionedExpr;
use vx_prepare::PreparedExpr;
use vx_prune::checked_pruning_expr;
use vx_scan::{ScanError, Side, decode_expr, prepare_both};
use vx_wire::ExprRegistry;
use vx_zones::ZoneMap;

/// What a scan of a table with these statistics would do with the filter and the projection that two byte texts spell, in lines,
/// each ended by a line feed:
///
/// - `filter` and the compact text of the filter;
/// - `pruning` and that of its pruning expression over the available statistics, or `-` where there is none: a block at which it is true
///   is skipped;
/// - `required` and the quoted joined names of the statistics that the pruning expression needs, in the table's order, or `-`;
/// - `parts` and the text of the filter in parts, each of which touches one column, and of the root that puts them together;
/// - `projection` and its compact text, and `parts` likewise.
///
/// Refuses as [`vx_scan::scan`] does before its first block: for the filter's text, for the projection's, for the filter's typing,
/// with FilterNotBool, and for the projection's typing. Never with Overflow, BadCast or StoreFault.
pub fn explain(
    alloc: Global,
    registry: &ExprRegistry,
    zones: &ZoneMap,
    filter: &[u8],
    projection: &[u8],
) -> Result<String, ScanError>
    ensures { Explains (registered registry.now) zones.now filter.now projection.now result }
{
    let filter_expr = decode_expr(alloc, registry, filter, Side::Filter)?;
    let projection_expr = decode_expr(alloc, registry, projection, Side::Projection)?;
    let slots: Vec<Option<Scalar>> = Vec::new(alloc);
    let both = prepare_both(
        alloc,
        &filter_expr,
        &projection_expr,
        slots.as_slice(),
        zones.dtype(),
    )?;
    Ok(explanation(alloc, zones, &filter_expr, &projection_expr, &both)?)
}

/// The explanation of a filter and a projection that are ready.
fn explanation(
    alloc: Global,
    zones: &ZoneMap,
    filter: &ExprRef,
    projection: &ExprRef,
    both: &(PreparedExpr, PreparedExpr),
) -> Mem<String>
    requires { ArePrepared zones.now.columns [] filter.now projection.now both.now }
    ensures { IfOk result (λ text. string_bytes text ≡ explain_text zones.now filter.now projection.now) }
{
    let pruning = checked_pruning_expr(alloc, filter, &zones.available(alloc)?)?;
    let pruned = pruning_text(alloc, &pruning)?;
    let required = required_text(alloc, zones.statistics(), &pruning)?;
    let filter_text = filter.compact(alloc)?;
    let filter_split = both.0.split();
    let filter_parts = parts_text(alloc, filter_split)?;
    let projection_text = projection.compact(alloc)?;
    let projection_split = both.1.split();
    let projection_parts = parts_text(alloc, projection_split)?;
    let texts = Texts {
        filter: filter_text,
        pruning: pruned,
        required,
        filter_parts,
        projection: projection_text,
        projection_parts,
    };
    lines(alloc, &texts)
}

/// The texts of an explanation.
#[derive(Drop)]
struct Texts {
    filter: String,
    pruning: String,
    required: String,
    filter_parts: String,
    projection: String,
    projection_parts: String,
}

/// The text of an expression in parts.
fn parts_text(alloc: Global, split: &PartitionedExpr<FieldName>) -> Mem<String>
    ensures { IfOk result (λ text. string_bytes text ≡ split_text (split_view split.now)) }
{
    Ok(format!(in alloc; "{split}")?)
}

/// The lines of an explanation.
fn lines(alloc: Global, texts: &Texts) -> Mem<String>
    ensures { IfOk result (λ text. string_bytes text ≡ explanation_lines (string_bytes texts.now.filter) (string_bytes texts.now.pruning)
        (string_bytes texts.now.required) (string_bytes texts.now.filter_parts) (string_bytes texts.now.projection)
        (string_bytes texts.now.projection_parts)) }
{
    let head = filter_lines(alloc, texts)?;
    let rest = projection_lines(alloc, texts)?;
    joined(alloc, head.as_str(), rest.as_str())
}

/// The lines on the filter.
fn filter_lines(alloc: Global, texts: &Texts) -> Mem<String>
    ensures { IfOk result (λ text. string_bytes text ≡ labelled (codes "filter ") (string_bytes texts.now.filter)
        (labelled (codes "pruning ") (string_bytes texts.now.pruning) (labelled (codes "required ") (string_bytes texts.now.required)
        (labelled (codes "parts ") (string_bytes texts.now.filter_parts) [])))) }
{
    let text = format!(in alloc;
        "filter {}\npruning {}\nrequired {}\nparts {}\n",
        texts.filter, texts.pruning, texts.required, texts.filter_parts
    )?;
    Ok(text)
}

/// The lines on the projection.
fn projection_lines(alloc: Global, texts: &Texts) -> Mem<String>
    ensures { IfOk result (λ text. string_bytes text ≡ labelled (codes "projection ") (string_bytes texts.now.projection)
        (labelled (codes "parts ") (string_bytes texts.now.projection_parts) [])) }
{
    let text = format!(in alloc;
        "projection {}\nparts {}\n",
        texts.projection, texts.projection_parts
    )?;
    Ok(text)
}

/// Two texts, one behind the other.
fn joined(alloc: Global, head: &str, rest: &str) -> Mem<String>
    ensures { IfOk result (λ text. string_bytes text ≡ head.now ++ rest.now) }
{
    Ok(format!(in alloc; "{head}{rest}")?)
}
