// The laws of cells, of types that are found and of tables: each is the contract of a function that does nothing.

ghost use Rattle.vx_laws_csv.specs.CsvLaws.{NumbersAreTheirTexts, OtherSpellings, CellsAreOfTheirType, FoundTypesTakeAll, FoundTypesAreLeast, NullsAreTexts};
ghost use Rattle.vx_laws_csv.specs.CsvLaws.{NothingIsRefused, RefusedCellsAreFirst, UnrefusedCellsAreTaken};
ghost use Rattle.vx_laws_csv.specs.CsvLaws.{TablesHoldTheCells, TablesAreWhole, CuttingKeepsRows, PartsAreFull, TheseAreAllRecords};

/// A cell is a whole number exactly where it is the number's decimal text, so that `007`, `+5` and `-0` are none.
pub fn numbers_are_their_texts()
    ensures texts { NumbersAreTheirTexts }
    ensures others { OtherSpellings }
{}

/// What a cell is at a type is a value of the type.
pub fn cells_are_of_their_type()
    ensures { CellsAreOfTheirType }
{}

/// The type that is found of cells takes each of them and is within each candidate that does; where all are null it is `utf8?`.
pub fn found_types_are_least()
    ensures take { FoundTypesTakeAll }
    ensures least { FoundTypesAreLeast }
    ensures nulls { NullsAreTexts }
{}

/// With the types that are found of rows none of their cells is refused.
pub fn nothing_is_refused()
    ensures { NothingIsRefused }
{}

/// The cell of rows that is refused is the first that is no value of its column's type; where none is refused there is none.
pub fn refused_cells_are_first()
    ensures first { RefusedCellsAreFirst }
    ensures none { UnrefusedCellsAreTaken }
{}

/// The rows of a table are what the cells are at their types, in order, and its blocks are as long and of the types as its zones say.
pub fn tables_hold_the_cells()
    ensures cells { TablesHoldTheCells }
    ensures whole { TablesAreWhole }
{}

/// Cutting keeps the rows, each once and in order, and each block but the last is full.
pub fn cutting_keeps_rows()
    ensures rows { CuttingKeepsRows }
    ensures full { PartsAreFull }
{}

/// Records that take a text to its end one after the other are all its records.
pub fn these_are_all_records()
    ensures { TheseAreAllRecords }
{}
