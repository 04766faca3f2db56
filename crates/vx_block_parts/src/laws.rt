// Laws of parts of stores: each is the contract of a function that does nothing.
ghost use Rattle.vx_block_parts.specs.PartLaws.{PartsReadTheirBlocks, PartsFailAtTheirBlocks, HonestPartsAreHonest, PartsAreCut, PartsJoin};

/// What reads a part shows as made behind others, these its store made, each so many blocks further on as the part begins. And where no read of the store
/// had failed, the last that failed is the one that the part shows, so much further on too.
pub fn parts_read_their_blocks()
    ensures reads { PartsReadTheirBlocks }
    ensures failed { PartsFailAtTheirBlocks }
{}

/// Where statistics are honest for a table, those of some of its blocks are honest for these.
pub fn honest_parts_are_honest()
    ensures { HonestPartsAreHonest }
{}

/// Some blocks that are cut in two are two parts, and the rows that a scan gives of the one and then of the other are those that it gives of both.
pub fn parts_join()
    ensures cut { PartsAreCut }
    ensures rows { PartsJoin }
{}
