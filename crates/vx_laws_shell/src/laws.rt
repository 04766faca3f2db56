// Laws of what runs answer: each is the contract of a function that does nothing.

ghost use Rattle.vx_laws_shell.specs.AnswerLaws.{RunsAreScans, LimitsGiveFirstRows, HonestLimitsGiveFirstRows};
ghost use Rattle.vx_laws_shell.specs.CutAnew.{TablesAreCutAnew, CutTablesKeepRows, CutTablesStayTables, StatisticsBuiltAnewAreHonest};
ghost use Rattle.vx_laws_shell.specs.CutAnew.{CutTablesLoseNoRow, CutTablesKeepLimits, CutTablesKeepFirstRows};
ghost use Rattle.vx_laws_shell.specs.Damage.{DamageIsDecided};
ghost use Rattle.vx_laws_shell.specs.Folders.{FilesAreJoined, JoinedFilesAreHonest, BuiltFilesAreOneFolder, BuiltFilesHaveBuiltStatistics};
ghost use Rattle.vx_laws_shell.specs.Folders.{ScansOfFiles, AnswersOfFiles, StatementsOfFiles};
ghost use Rattle.vx_laws_shell.specs.KeyedRuns.{KeyedRunsWriteAnswers};
ghost use Rattle.vx_laws_shell.specs.OrderedRuns.{OrderedRunsWriteAnswers};
ghost use Rattle.vx_laws_shell.specs.Parts.{PartsJoin};
ghost use Rattle.vx_laws_shell.specs.PlanLaws.{PlansHaveNoSlot, PlanKeysArePlain};
ghost use Rattle.vx_laws_shell.specs.ToldTables.{ToldTablesAreTables};
ghost use Rattle.vx_laws_shell.specs.Words.{WordsTellRanges};

/// Without a limit a run in the table's order finds what a scan does.
pub fn runs_are_scans()
    ensures { RunsAreScans }
{}

/// With a limit a run that isn't stopped finds the first rows of those that a scan finds; where statistics are honest these are the first of all rows.
pub fn limits_give_first_rows()
    ensures kept { LimitsGiveFirstRows }
    ensures honest { HonestLimitsGiveFirstRows }
{}

/// A run through the blocks of a table in their order writes the answer, and so does one by a key.
pub fn runs_write_answers()
    ensures ordered { OrderedRunsWriteAnswers }
    ensures keyed { KeyedRunsWriteAnswers }
{}

/// No part of a plan compares with a slot, and its key is a column of a plain type.
pub fn plans_can_be_run()
    ensures slots { PlansHaveNoSlot }
    ensures keys { PlanKeysArePlain }
{}

/// A word tells a range of blocks exactly where it is the decimal digits of two numbers below 2 ^ 64 with `..` between them, of which the first
/// isn't greater.
pub fn words_tell_ranges()
    ensures { WordsTellRanges }
{}

/// Of a block file that is opened it is decided which columns are damaged.
pub fn damage_is_decided()
    ensures { DamageIsDecided }
{}

/// The rows of a scan of some blocks are those of a scan of the first of them, and then those of a scan of the others.
pub fn parts_join()
    ensures { PartsJoin }
{}

/// Files of one folder are one table: its blocks are theirs, one file after another, and its statistics are honest where theirs are. Tables of the
/// same columns, each with the statistics that it has, are such files, and the statistics of their table are those that it has.
pub fn files_are_one_table()
    ensures blocks { FilesAreJoined }
    ensures honest { JoinedFilesAreHonest }
    ensures built { BuiltFilesAreOneFolder }
    ensures statistics { BuiltFilesHaveBuiltStatistics }
{}

/// A scan of that table has the rows and the reads of scans of the files, one after another, and breaks exactly where one of them does, and as the
/// first of them that does. In the table's order and without a limit, so with each statement that asks no other, the answer over it has the exit status
/// of the first answer over a file that isn't 0, and writes what the answers over the files write, up to the end of that one.
pub fn files_are_answered_in_turn()
    ensures scans { ScansOfFiles }
    ensures answers { AnswersOfFiles }
    ensures statements { StatementsOfFiles }
{}

/// A table is cut anew into blocks of one length, of which the last may have fewer rows and none has none: they have its rows in their order, and no
/// other such blocks do.
pub fn tables_are_cut_anew()
    ensures { TablesAreCutAnew }
{}

/// A table that is cut anew keeps each answer in rows: all rows, and by the statistics that it then has, which are honest, those of a scan, the first
/// in the table's order, and the first by a key.
pub fn cut_tables_keep_answers()
    ensures rows { CutTablesKeepRows }
    ensures tables { CutTablesStayTables }
    ensures honest { StatisticsBuiltAnewAreHonest }
    ensures scans { CutTablesLoseNoRow }
    ensures limits { CutTablesKeepLimits }
    ensures first { CutTablesKeepFirstRows }
{}

/// The blocks of a table that a text tells are a table with its zones.
pub fn told_tables_are_tables()
    ensures { ToldTablesAreTables }
{}
