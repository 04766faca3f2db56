// The laws of the generated table, its statistics and its expressions.

ghost use Rattle.vx_laws_generated.specs.GeneratedLaws.{BlocksHoldAllRows, GeneratedZonesAreLawful, GeneratedBlocksFit, GeneratedZonesAreHonest};
ghost use Rattle.vx_laws_generated.specs.GeneratedLaws.{GeneratedFilterIsTyped, GeneratedProjectionIsTyped};

/// The blocks of the table hold its rows from 0 on, in order, each once.
pub fn blocks_hold_all_rows()
    ensures { BlocksHoldAllRows }
{}

/// The statistics of fewer than 2^32 rows break no rule of zones, and each of their values is one of its type.
pub fn generated_zones_are_lawful()
    ensures { GeneratedZonesAreLawful }
{}

/// The blocks of fewer than 2^32 rows have as many rows as the statistics say, and each row is one of the table's type.
pub fn generated_blocks_fit()
    ensures { GeneratedBlocksFit }
{}

/// The statistics are honest for the table.
pub fn generated_zones_are_honest()
    ensures { GeneratedZonesAreHonest }
{}

/// The filter of fewer than 2^32 rows is a strictly typed boolean over the rows of the table, and the projection is strictly typed.
pub fn generated_expressions_are_typed()
    ensures filter { GeneratedFilterIsTyped }
    ensures projection { GeneratedProjectionIsTyped }
{}
