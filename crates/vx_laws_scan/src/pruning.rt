// The laws of pruning.

ghost use Rattle.vx_laws_scan.specs.Pruned.{KeptNumbersAreKeptBlocks, KeptRowsAreAll, RangeRulesOutAsItsComparisons, RuledOutIsNeverTrue};

/// Where the statistics are honest, a filter means true at no row of a block that it rules out.
pub fn ruled_out_is_never_true()
    ensures { RuledOutIsNeverTrue }
{}

/// Where the statistics are honest, the rows of the kept blocks alone are all rows of the answer.
pub fn kept_rows_are_all()
    ensures { KeptRowsAreAll }
{}

/// Where a table has as many blocks as its statistics have lengths, the numbers of the table's kept blocks are those that the statistics keep, in order.
pub fn kept_numbers_are_kept_blocks()
    ensures { KeptNumbersAreKeptBlocks }
{}

/// A range rules out the blocks that its two comparisons joined by `and` rule out, and its negation those that their negation does.
pub fn range_rules_out_as_its_comparisons()
    ensures { RangeRulesOutAsItsComparisons }
{}
