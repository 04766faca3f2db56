// What the ranges of a file say, and what is held where they are damaged.

ghost use Rattle.vx_laws_file.specs.FileLaws.{DamagedValuesAreFillers, HeldIsRead, HeldIsTable, HeldValuesAreRead, OneRange, RangeValuesAreSpelled};
ghost use Rattle.vx_laws_file.specs.FileLaws.{ReadAsOne, ReadIsNotDamaged, SpelledValuesAreRead, WholeIsFile};

/// A range spells one list of values of a type, where it is to spell so many.
pub fn a_range_spells_one_list()
    ensures { OneRange }
{}

/// The values that are read of a range are those that it spells.
pub fn range_values_are_spelled()
    ensures spelled { RangeValuesAreSpelled }
    ensures read { SpelledValuesAreRead }
{}

/// A pair of a block and a column is read as one list of values, or damaged, and not both.
pub fn read_is_not_damaged()
    ensures one { ReadAsOne }
    ensures damaged { ReadIsNotDamaged }
{}

/// The table that a file holds is one with its statistics, and each value is one of its type, also where a range is damaged.
pub fn held_is_a_table()
    ensures { HeldIsTable }
{}

/// The table that a file holds has at each pair of a block and a column the values that are read there, and fillers where it is damaged.
pub fn held_is_read()
    ensures pair { HeldIsRead }
    ensures read { HeldValuesAreRead }
    ensures damaged { DamagedValuesAreFillers }
{}

/// A file with no pair damaged is the file of the table that it holds.
pub fn whole_is_a_file()
    ensures { WholeIsFile }
{}
