// Bytes that are opened as files, or refused.

ghost use Rattle.vx_laws_file.specs.FileLaws.{AnswerIsComputed, HeaderAndEndOpen, NoFileBeginsAnother, OneContent, OneHeader, OneRefusal, OpenedIsNotRefused};
ghost use Rattle.vx_laws_file.specs.FileLaws.{RangeStandsAtItsPlace, RefusedZonesHaveDoubles};

/// One header stands at the front of bytes, and a file holds one content; no file is a proper prefix of another.
pub fn no_file_begins_another()
    ensures header { OneHeader }
    ensures content { OneContent }
    ensures prefix { NoFileBeginsAnother }
{}

/// Whatever bytes are opened or refused, as is computed: refused for one reason, and not where they are opened.
pub fn one_refusal()
    ensures one { OneRefusal }
    ensures opened { OpenedIsNotRefused }
    ensures computed { AnswerIsComputed }
{}

/// The statistics of a header are refused for a name or a statistic that stands twice, and for nothing else.
pub fn refused_zones_have_doubles()
    ensures { RefusedZonesHaveDoubles }
{}

/// Bytes with a header whose statistics break no rule are opened where the last range ends where the bytes end.
pub fn header_and_end_open()
    ensures { HeaderAndEndOpen }
{}

/// The range of a column of a block stands behind the header, the ranges of the blocks before, and those of the columns before in its block.
pub fn a_range_stands_at_its_place()
    ensures { RangeStandsAtItsPlace }
{}
