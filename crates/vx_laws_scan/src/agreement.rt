// The laws of rows and tables that agree on the asked columns.

ghost use Rattle.vx_laws_scan.specs.Agreeing.{AgreeingRowsBreakTheSame, AgreeingRowsMeanTheSame};
ghost use Rattle.vx_laws_scan.specs.Agreeing.{AgreeingTablesHaveTheSameReads, AgreeingTablesHaveTheSameRows};

/// Two rows of the table's type that agree on an expression's asked columns mean the same, faults included.
pub fn agreeing_rows_mean_the_same()
    ensures { AgreeingRowsMeanTheSame }
{}

/// At two rows of the table's type that agree on an expression's asked columns, the same asked nodes break, by the same cause.
pub fn agreeing_rows_break_the_same()
    ensures { AgreeingRowsBreakTheSame }
{}

/// Two tables of one type, lengths and honest statistics that agree on the asked columns in the kept blocks have the same rows.
pub fn agreeing_tables_have_the_same_rows()
    ensures { AgreeingTablesHaveTheSameRows }
{}

/// Two tables of one type, lengths and statistics that agree on the asked columns in the kept blocks have the same reads.
pub fn agreeing_tables_have_the_same_reads()
    ensures { AgreeingTablesHaveTheSameReads }
{}
