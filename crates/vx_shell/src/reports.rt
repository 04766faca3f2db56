// What is told of what was found.
ghost use Rattle.std.specs.Prelude.{◌≡◌, List, Ok, map, option_map, IfOk};
ghost use Rattle.std.specs.List.{slice_get};
ghost use Rattle.vx_scan.specs.Stores.{Read};
ghost use Rattle.vx_scan.specs.StoreViews.{entry_view};
ghost use Rattle.vx_shell.specs.CountViews.{counts_view, counts_read};
ghost use Rattle.vx_shell.specs.FileRuns.{IsFaultOf, IsToldBy, Reports, ReportsFile};

use crate::answers::Found;
use crate::counting::{Counts, columns_read};
use crate::errors::Refusal;
use std::alloc::Global;
use vx_dtype::{Mem, NoMemory};
use vx_scan::ReadEntry;
use vx_tables::columns_of;
use vx_zones::ZoneMap;

/// The counts of what was found by the reads of a log.
fn counts(alloc: Global, found: Found, zones: &ZoneMap, log: &[ReadEntry]) -> Mem<Counts>
    ensures { IfOk result (λ counted. counts_view counted ≡ counts_read zones.now (map entry_view log.now) found) }
{
    Ok(Counts {
        blocks: found.blocks,
        skipped: found.skipped,
        columns: columns_of(zones).nfields(),
        columns_read: columns_read(alloc, zones, log)?,
        rows: found.rows,
    })
}

/// The counts, or want of memory for them.
pub(crate) fn counted(
    alloc: Global,
    found: Found,
    zones: &ZoneMap,
    log: &[ReadEntry],
) -> Result<Counts, Refusal>
    ensures { Reports (Ok found) result }
{
    match counts(alloc, found, zones, log) {
        Ok(counted) => Ok(counted),
        Err(NoMemory) => Err(Refusal::NoMemory),
    }
}

/// Why a read of files failed, of whose reads that failed by damage this is the first: a column is damaged, or else a source counted a fault.
fn fault_of(damage: Option<&ReadEntry>) -> Refusal
    ensures { (damaged : List Read) → option_map (λ e. entry_view e.now) damage.entry ≡ slice_get damaged 0 → IsFaultOf damaged result }
{
    match damage {
        Some(_) => Refusal::Damaged,
        None => Refusal::Unread,
    }
}

/// A refusal as files tell it, of whose reads that failed by damage this is the first: why a read failed.
fn told_refusal(refusal: Refusal, damage: Option<&ReadEntry>) -> Refusal
    ensures { (damaged : List Read) → option_map (λ e. entry_view e.now) damage.entry ≡ slice_get damaged 0 → IsToldBy damaged refusal result }
{
    match refusal {
        Refusal::StoreFault => fault_of(damage),
        other => other,
    }
}

/// What is told of what was found over files, by the reads of a log and the first of those that failed by damage.
pub(crate) fn report(
    alloc: Global,
    found: Result<Found, Refusal>,
    zones: &ZoneMap,
    log: &[ReadEntry],
    damage: Option<&ReadEntry>,
) -> Result<Counts, Refusal>
    ensures { (damaged : List Read) → option_map (λ e. entry_view e.now) damage.entry ≡ slice_get damaged 0 → ReportsFile damaged found result }
{
    match found {
        Ok(found) => counted(alloc, found, zones, log),
        Err(refusal) => Err(told_refusal(refusal, damage)),
    }
}
