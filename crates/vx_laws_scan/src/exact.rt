// The law of exact pruning.

ghost use Rattle.vx_laws_scan.specs.Exactness.{PruningIsExact};

/// A strictly typed filter of `and`, `or` and `not` over comparisons and ranges of paths and constants, and of `and` and `or`
/// over such filters and memberships in constant lists without a null element, rules a block out exactly where no instance of it means true,
/// where both bounds of each path are known in the block and in order.
pub fn pruning_is_exact()
    ensures { PruningIsExact }
{}
