// The laws of pruning expressions over the statistics of accepted zones.

ghost use Rattle.vx_laws_pruning.specs.PruningLaws.{PruningTreeRulesOut};
ghost use Rattle.vx_laws_pruning.specs.PruningTypes.{PruningSlotsFit, PruningTreeIsTyped, PruningTreeNeverBreaks};

/// For a strictly typed filter over accepted zones the pruning expression means true at the row of a block exactly where the filter
/// rules the block out; where there is none, no block is ruled out.
pub fn pruning_tree_rules_out()
    ensures { PruningTreeRulesOut }
{}

/// Over accepted zones of one block at least the pruning expression is a strictly typed boolean over the row of their statistics.
pub fn pruning_tree_is_typed()
    ensures { PruningTreeIsTyped }
{}

/// None of the nodes of the pruning expression breaks at any row.
pub fn pruning_tree_never_breaks()
    ensures { PruningTreeNeverBreaks }
{}

/// The slots that fit a filter fit its pruning expression.
pub fn pruning_slots_fit()
    ensures { PruningSlotsFit }
{}
