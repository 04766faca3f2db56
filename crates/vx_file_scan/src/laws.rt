// Laws of how scans of block files end: each is the contract of a function that does nothing.

ghost use Rattle.vx_file_scan.specs.FailureLaws.{FilesAreLeftAtFailures};
ghost use Rattle.vx_file_scan.specs.TableScans.{ScansOfOneTableEndTheSame};
ghost use Rattle.vx_file_scan.specs.FileScanLaws.{FaultsShowDamage, DamageIsAFault, UndamagedScansReport, UndamagedScansBreak};
ghost use Rattle.vx_file_scan.specs.FileScanLaws.{HonestFileScansAreWhole, UndamagedScansEndAsInMemory};

/// Of a file that wasn't read before and is read up to the first read that fails no read is damaged but the one that failed; the source counted no fault
/// where none failed, and one where one failed that isn't damaged.
pub fn files_are_left_at_failures()
    ensures { FilesAreLeftAtFailures }
{}

/// Two scans by the same texts over stores that tell one table, with the same statistics, answer the same and make the same reads, where neither answer is
/// want of memory or a read that failed. Of two breaks one may be by a sum and the other by a cast.
pub fn scans_of_one_table_end_the_same()
    ensures { ScansOfOneTableEndTheSame }
{}

/// Over a source that counted no fault StoreFault comes only where one of the reads is of a damaged pair; and where one is, StoreFault is answered to
/// expressions that are typed, or there was no memory.
pub fn damage_is_a_store_fault()
    ensures only { FaultsShowDamage }
    ensures wherever { DamageIsAFault }
{}

/// Where none of the reads is of a damaged pair and the source counted no fault, typed expressions have a report where no phase breaks, and Overflow or
/// BadCast where one does, or there was no memory.
pub fn undamaged_scans_end_by_their_phases()
    ensures reports { UndamagedScansReport }
    ensures breaks { UndamagedScansBreak }
{}

/// Where a file's statistics are honest for the table that it holds, the rows of a report are those of all its blocks, the skipped ones too.
pub fn honest_file_scans_are_whole()
    ensures { HonestFileScansAreWhole }
{}

/// Where none of the reads is of a damaged pair and the source counted no fault, the scan of a file answers what that of a store in memory does which
/// holds the file's table, and makes the same reads, where neither answer is want of memory.
pub fn undamaged_scans_end_as_in_memory()
    ensures { UndamagedScansEndAsInMemory }
{}
