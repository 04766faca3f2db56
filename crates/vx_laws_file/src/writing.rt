// Files that are written.

ghost use Rattle.vx_laws_file.specs.FileLaws.{FilesAreShort, OneTable, WrittenIsHeld, WrittenIsOpened, WrittenIsWhole};

/// The file of a table is opened, and holds the columns that were written, with no pair of a block and a column damaged.
pub fn written_is_opened()
    ensures opened { WrittenIsOpened }
    ensures held { WrittenIsHeld }
    ensures whole { WrittenIsWhole }
{}

/// A file spells one table with its statistics: two tables that have one file are the same.
pub fn one_table()
    ensures { OneTable }
{}

/// In a table that has a file no text and no list has 2^32 or more, nor has the range of a column or the header; and it has at most 1,048,576 rows.
pub fn files_are_short()
    ensures { FilesAreShort }
{}
