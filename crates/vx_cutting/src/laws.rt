// Laws of tables that are cut anew or put into parts: each is the contract of a function that does nothing.
ghost use Rattle.vx_cutting.specs.CutLaws.{CutTablesAreTables, CuttingKeepsRows};
ghost use Rattle.vx_cutting.specs.Parting.{PartsAreTheTable};

/// The blocks of a table that is cut have the lengths and the types that its zones say.
pub fn cut_tables_are_tables()
    ensures { CutTablesAreTables }
{}

/// A table that is cut has the same rows, in the same order.
pub fn cutting_keeps_rows()
    ensures { CuttingKeepsRows }
{}

/// The parts that the blocks of a table are put into are tables of its columns, and have its blocks, one part's behind another's.
pub fn parts_are_the_table()
    ensures { PartsAreTheTable }
{}
