// Pruning expressions over available statistics.
ghost use Rattle.std.specs.Prelude.{IfOk};
ghost use Rattle.vx_passes.specs.PruningTables.{pruning_over};
ghost use Rattle.vx_prune.specs.Required.{PrunesBy};

use crate::catalogs::ScopeStatsCatalog;
use crate::falsify::falsified;
use crate::relations::RequiredStats;
use std::alloc::Global;
use vx_dtype::{FieldPathSet, Mem};
use vx_expr::ExprRef;

/// The pruning expression of a filter over available statistics, and all statistics that it and its making needed: the expression
/// is true only where the filter is true at no row. None where the available statistics give none.
pub fn checked_pruning_expr(
    alloc: Global,
    expr: &ExprRef,
    available: &FieldPathSet,
) -> Mem<Option<(ExprRef, RequiredStats)>>
    ensures { IfOk result (PrunesBy (pruning_over available.now expr.now)) }
{
    let mut catalog = ScopeStatsCatalog::new(alloc, available);
    match falsified(alloc, expr, &mut catalog)? {
        Some(pruning) => Ok(Some((pruning, catalog.into_required(alloc)?))),
        None => Ok(None),
    }
}
