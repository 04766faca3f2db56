// What the calls say of one another.

ghost use Rattle.vx_calls.specs.CallLaws.{RuledOutBlocksHaveNoTrueRow};

/// Where statistics are honest for a table, a block that [`rules_out`](crate::rules_out) tells has no row at which [`rows`](crate::rows) tells that the filter
/// is true.
pub fn ruled_out_blocks_have_no_true_row()
    ensures { RuledOutBlocksHaveNoTrueRow }
{}
