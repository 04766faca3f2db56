// The law of the blocks of columns.

ghost use Rattle.vx_generated.specs.BlockLaws.{GeneratedBlocksAreTheTable};

/// The blocks of columns agree with the statistics, and are the generated table.
pub fn generated_blocks_are_the_table()
    ensures { GeneratedBlocksAreTheTable }
{}
