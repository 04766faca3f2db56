// Which blocks a filter rules out.
ghost use Rattle.std.specs.Prelude.{◌≡◌, true, Ok, IfOk};
ghost use Rattle.vx_dtype.specs.Types.{Ty};
ghost use Rattle.vx_semantics.specs.Typing.{typed_of};
ghost use Rattle.vx_semantics.specs.Slots.{slots_fit};
ghost use Rattle.vx_semantics.specs.Tables.{row_type};
ghost use Rattle.vx_block_pruning.specs.BlocksRuledOut.{blocks_ruled_out};

use crate::rules::PruningRule;
use std::alloc::Global;
use vx_dtype::{Mem, Scalar};
use vx_expr::ExprRef;
use vx_zones::ZoneMap;

/// Which blocks of a table a filter rules out: the statistics show that it is true at no row there. One truth value per block, in
/// order. The filter is typed over the table's rows, and the slots fit it.
pub fn ruled_out(
    alloc: Global,
    zones: &ZoneMap,
    filter: &ExprRef,
    slots: &[Option<Scalar>],
) -> Mem<Vec<bool>>
    requires typed { (u : Ty) × (typed_of (row_type zones.now.columns) filter.now ≡ Ok u) }
    requires slots { slots_fit slots.now filter.now ≡ true }
    ensures { IfOk result (λ flags. flags.items ≡ blocks_ruled_out zones.now slots.now filter.now) }
{
    let rule = PruningRule::new(alloc, zones, filter)?;
    let blocks = zones.lengths().len() as u32;
    rule.rules_out(alloc, zones, 0, blocks, slots)
}
