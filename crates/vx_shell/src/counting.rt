// How many columns of a table were read, and the line of what was counted.
ghost use Rattle.std.specs.Prelude.{◌≡◌, length, map, IfOk};
ghost use Rattle.std.specs.HashSet.{contains};
ghost use Rattle.std.specs.List.{filter, list_any};
ghost use Rattle.std.specs.Str.{bytes_eq};
ghost use Rattle.std.specs.String.{string_bytes};
ghost use Rattle.vx_dtype.specs.Types.{Bytes};
ghost use Rattle.vx_laws_shell.specs.Lines as lines;
ghost use Rattle.vx_scan.specs.StoreViews.{entry_view};
ghost use Rattle.vx_shell.specs.CountViews.{counts_view, names_read};

use std::alloc::Global;
use std::collections::HashSet;
use vx_dtype::{FieldName, Mem};
use vx_scan::ReadEntry;
use vx_tables::columns_of;
use vx_zones::ZoneMap;

/// What is counted of a run: its blocks and how many of them were skipped, the table's columns and how many of them were read, and the rows.
#[derive(Clone, Copy, Debug)]
pub(crate) struct Counts {
    pub(crate) blocks: u32,
    pub(crate) skipped: u32,
    pub(crate) columns: usize,
    pub(crate) columns_read: usize,
    pub(crate) rows: u64,
}

impl Counts {
    /// The line of what was counted, and of how many milliseconds the run took, where that is known.
    pub(crate) fn line(&self, alloc: Global, milliseconds: Option<u64>) -> Mem<String>
        ensures { IfOk result (λ line. string_bytes line ≡ lines.counts_line (counts_view self.now) milliseconds) }
    {
        let Counts {
            blocks,
            skipped,
            columns,
            columns_read,
            rows,
        } = *self;
        let seconds = seconds_known(alloc, milliseconds)?;
        Ok(format!(in alloc;
            "blocks skipped {skipped} of {blocks}, columns read {columns_read} of {columns}, rows {rows}{seconds}\n"
        )?)
    }
}

/// How many seconds so many milliseconds are, as it stands behind what was counted. Nothing where they aren't known.
fn seconds_known(alloc: Global, milliseconds: Option<u64>) -> Mem<String>
    ensures { IfOk result (λ text. string_bytes text ≡ lines.seconds_known milliseconds) }
{
    match milliseconds {
        Some(milliseconds) => seconds_text(alloc, milliseconds),
        None => Ok(String::new(alloc)),
    }
}

/// How many seconds so many milliseconds are, with three digits behind the point.
fn seconds_text(alloc: Global, milliseconds: u64) -> Mem<String>
    ensures { IfOk result (λ text. string_bytes text ≡ lines.seconds_text milliseconds) }
{
    let (seconds, tenths) = (milliseconds / 1000, milliseconds / 100 % 10);
    let (hundredths, thousandths) = (milliseconds / 10 % 10, milliseconds % 10);
    Ok(format!(in alloc; ", seconds {seconds}.{tenths}{hundredths}{thousandths}")?)
}

/// The names of the columns of reads, as a set.
fn set_of_names(alloc: Global, reads: &[ReadEntry]) -> Mem<HashSet<FieldName>>
    ensures { IfOk result (λ read. (c : Bytes) → contains bytes_eq read c ≡ list_any (λ r. bytes_eq c r.1) (map entry_view reads.now)) }
{
    let mut read = HashSet::new(alloc);
    for entry in reads {
        read.insert(entry.name.clone()?)?;
    }
    Ok(read)
}

/// How many of these names a set has.
fn number_among(names: &[FieldName], set: &HashSet<FieldName>) -> usize
    ensures { result ≡ length (filter (contains bytes_eq set.now) names.now) }
{
    let mut number = 0;
    for name in names {
        if set.contains(name) {
            number += 1;
        }
    }
    number
}

/// How many columns of a table with these zones were read at least once by the reads of a log.
pub(crate) fn columns_read(alloc: Global, zones: &ZoneMap, log: &[ReadEntry]) -> Mem<usize>
    ensures { IfOk result (λ number. number ≡ length (names_read zones.now (map entry_view log.now))) }
{
    let read = set_of_names(alloc, log)?;
    let names = columns_of(zones).names();
    Ok(number_among(names.as_slice(), &read))
}
