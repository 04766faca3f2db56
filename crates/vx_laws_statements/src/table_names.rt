// A statement names one table, whatever columns the table has.

ghost use Rattle.vx_laws_statements.specs.TableNames.{TablesAreNamed, UnnamedTablesAreRefused};

/// What a statement names over some columns is over the table that it names without them.
pub fn tables_are_named()
    ensures { TablesAreNamed }
{}

/// A statement that names no table is refused over all columns, for the same reason.
pub fn unnamed_tables_are_refused()
    ensures { UnnamedTablesAreRefused }
{}
