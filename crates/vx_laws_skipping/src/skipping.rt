// The laws of exact skipping.

ghost use Rattle.vx_laws_skipping.specs.ExactSkipping.{RuledOutIsExact, ScansSkipExactly, TextScansSkipExactly};

/// What `ruled_out` answers of a strictly typed filter of `and`, `or` and `not` over comparisons and ranges of paths and constants that aren't
/// null, and of `and` and `or` over such filters and memberships in constant lists without a null element: where both bounds of each path are
/// known in a block, and in order, the block's flag is set exactly where no values between these bounds, chosen for each place of a path by
/// itself, make the filter true.
pub fn ruled_out_is_exact()
    ensures { RuledOutIsExact }
{}

/// The report of a scan by such a filter lists a block as skipped exactly where no such values make the filter true.
pub fn scans_skip_exactly()
    ensures exprs { ScansSkipExactly }
    ensures texts { TextScansSkipExactly }
{}
