// Laws of what is written: each is the contract of a function that does nothing.
ghost use Rattle.vx_laws_writing.specs.FolderLaws.{WhatIsInAFolderIsTheTable};
ghost use Rattle.vx_laws_writing.specs.NameLaws.{NumberedNamesAscend};
ghost use Rattle.vx_laws_writing.specs.WriteLaws.{BlocksCutAreCutAnew, TablesAreOfTheirTexts, WhatIsWrittenIsTheTable, WhatIsWrittenIsTheText};

/// What is written of a table is opened, has its columns, holds its rows in their order, cut anew or not, and has statistics that don't lie.
pub fn what_is_written_is_the_table()
    ensures { WhatIsWrittenIsTheTable }
{}

/// What is written of a table into the files of a folder is opened, and holds the table: they are of one folder, and have together its columns, its rows in
/// their order, cut anew or not, and the statistics of these.
pub fn what_is_in_a_folder_is_the_table()
    ensures { WhatIsInAFolderIsTheTable }
{}

/// The names of at most a million numbered files ascend by their bytes, so the files of a folder are read in the order in which they were written.
pub fn numbered_names_ascend()
    ensures { NumberedNamesAscend }
{}

/// The table of a text of CSV is that of its columns, found or given, and of the records behind its first one; and what is written of it is opened, has the
/// columns, and holds in order what the cells of its rows are at their types.
pub fn what_is_written_is_the_text()
    ensures tables { TablesAreOfTheirTexts }
    ensures files { WhatIsWrittenIsTheText }
{}

/// The blocks of columns that a table is cut into are those of the table cut anew.
pub fn blocks_cut_are_cut_anew()
    ensures { BlocksCutAreCutAnew }
{}
