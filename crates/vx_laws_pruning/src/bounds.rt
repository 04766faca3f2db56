// The laws of the known bounds of accepted zones.

ghost use Rattle.vx_laws_pruning.specs.KnownBounds.{AcceptedPruningIsExact, KnownBoundsAreBounds};

/// Where accepted zones have a known least and a known greatest value of a path in a block, in order, the path is bounded there as exact
/// pruning asks.
pub fn known_bounds_are_bounds()
    ensures { KnownBoundsAreBounds }
{}

/// Over accepted zones a strictly typed filter of the exact class, whose paths have known bounds in a block, in order, rules the block out
/// exactly where no instance of the filter means true.
pub fn accepted_pruning_is_exact()
    ensures { AcceptedPruningIsExact }
{}
