// What is explained of a plan over the zones of a table.
ghost use Rattle.std.specs.Prelude.{◌≡◌, [], true, Ok, IfOk, option_map};
ghost use Rattle.vx_dtype.specs.Types.{Ty};
ghost use Rattle.vx_semantics.specs.Slots.{slots_fit};
ghost use Rattle.vx_semantics.specs.Tables.{row_type};
ghost use Rattle.vx_semantics.specs.Typing.{typed_of};
ghost use Rattle.vx_sql.specs.StatementAnswers.{key_view};
ghost use Rattle.vx_block_pruning.specs.BlocksRuledOut.{blocks_ruled_out};
ghost use Rattle.vx_laws_explaining.specs.Explained as spec;
ghost use Rattle.vx_explaining.specs.ExplainedViews.{explained_view};

use crate::columns::{UsedColumn, columns_of};
use crate::deciders::{Decider, Pruned, pruned_over};
use std::alloc::Global;
use vx_block_pruning::ruled_out;
use vx_dtype::{Mem, Scalar};
use vx_expr::ExprRef;
use vx_sql::Key;
use vx_zones::ZoneMap;

/// What is explained: the filter and the projection, the pruning expression where there is one, the statistics that decide which blocks are skipped, the
/// columns, and of each block its rows and whether it is skipped.
#[derive(Debug, Drop)]
pub(crate) struct Explained<'z> {
    pub(crate) filter: ExprRef,
    pub(crate) projection: ExprRef,
    pub(crate) pruning: Option<ExprRef>,
    pub(crate) deciders: Vec<Decider<'z>>,
    pub(crate) columns: Vec<UsedColumn<'z>>,
    pub(crate) lengths: &'z [u32],
    pub(crate) skipped: Vec<bool>,
}

/// Of each block, whether the filter rules it out.
fn skipped_blocks(alloc: Global, zones: &ZoneMap, filter: &ExprRef) -> Mem<Vec<bool>>
    requires typed { (u : Ty) × (typed_of (row_type zones.now.columns) filter.now ≡ Ok u) }
    requires slots { slots_fit [] filter.now ≡ true }
    ensures { IfOk result (λ skipped. skipped.items ≡ blocks_ruled_out zones.now [] filter.now) }
{
    let slots: [Option<Scalar>; 0] = [];
    ruled_out(alloc, zones, filter, &slots)
}

/// What is explained of a filter, a projection and an order over the zones of a table, whose blocks have these lengths. Both expressions are strictly typed
/// over the table's rows, and compare with no slot.
pub(crate) fn explained_by<'z>(
    alloc: Global,
    zones: &'z ZoneMap,
    lengths: &'z [u32],
    filter: ExprRef,
    projection: ExprRef,
    order: &Option<Key>,
) -> Mem<Explained<'z>>
    requires lengths { lengths.now ≡ zones.now.lengths }
    requires filter { (u : Ty) × (typed_of (row_type zones.now.columns) filter ≡ Ok u) }
    requires filter_slots { slots_fit [] filter ≡ true }
    requires rows { (u : Ty) × (typed_of (row_type zones.now.columns) projection ≡ Ok u) }
    requires rows_slots { slots_fit [] projection ≡ true }
    ensures { IfOk result (λ x. explained_view x ≡ spec.explained_by zones.now filter projection (option_map key_view order.now)) }
{
    let skipped = skipped_blocks(alloc, zones, &filter)?;
    let columns = columns_of(alloc, zones, &filter, &projection, order)?;
    let Pruned { tree, deciders } = pruned_over(alloc, zones, &filter)?;
    Ok(Explained {
        filter,
        projection,
        pruning: tree,
        deciders,
        columns,
        lengths,
        skipped,
    })
}
