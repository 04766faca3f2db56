// A block file as a store.
ghost use Rattle.std.specs.Prelude.{◌≡◌, ◌<◌, ◌≤◌, true, [], length, map, None, Err, option_map, IfOk, IfSome};
ghost use Rattle.std.specs.List.{slice_get};
ghost use Rattle.vx_dtype.specs.TypeRules.{has_name, field_names};
ghost use Rattle.vx_io.specs.Counts.{one_more};
ghost use Rattle.vx_scan.specs.Stores.{WhereTold, AgreesWith, IsSameStore, Reads};
ghost use Rattle.vx_scan.specs.StoreViews.{entry_view};
ghost use Rattle.vx_file_open.specs.Layouts.{content_at, WhereBytes, IsFileWith};
ghost use Rattle.vx_file_open.specs.ColumnAnswers.{IsColumnIn, IsRangeRead};
ghost use Rattle.vx_file.specs.FileStates.{file_seen, IsSound, IsSpoilt, IsKept, IsSameFile, IsLaterFile, ReadsFile};
ghost use Rattle.vx_file.specs.FileStates.{counted_to, after_fault, after_damage, LeavesRead, LeavesFailed, IsReadOf};
ghost use Rattle.vx_file.specs.FileMoves.{later_file, later_file_on};

use std::alloc::{AllocError, Global};
use std::marker::Model;
use vx_column::ColumnRef;
use vx_dtype::FieldName;
use vx_file_open::{Layout, read_column};
use vx_file_ranges::{PieceError, Ranged};
use vx_scan::{ColumnStore, ReadEntry, StoreError};
use vx_zones::ZoneMap;

/// A block file over a source that is read by places: a store that reads the range of a column where it is asked, and no other. It holds the table of its
/// bytes, known to the spec where the source tells these. Where a range isn't the values of its column, that pair of a block and a column is damaged.
///
/// A read fails only where the source counted a fault in this call, or where it counted none and the pair is damaged. In the second case the read is put
/// behind those that failed so, which count as faults beside the source's. Where there is no memory for a read, the file is as it was.
#[derive(Drop)]
pub struct BlockFile<R: Ranged> {
    alloc: Global,
    source: R,
    layout: Layout,
    log: Vec<ReadEntry>,
    failed: Option<ReadEntry>,
    damaged: Vec<ReadEntry>,
}

impl<R: Ranged> Model for BlockFile<R> {
    ghost use Rattle.std.specs.Prelude.{map, option_map};
    ghost use Rattle.vx_file.specs.FileStates.{FileState};
    ghost use Rattle.vx_file.specs.FileCodes.{coded_file};

    ghost Value = { FileState };

    ghost coded = { coded_file };

    ghost use Rattle.vx_scan.specs.StoreViews.{entry_view};
    ghost use Rattle.vx_file_open.specs.Layouts.{WhereBytes};
    ghost use Rattle.vx_file.specs.FileStates.{IsKept};

    ghost view = { λ s. record {
      header = s.layout;
      bytes = R.bytes s.source;
      count = R.faults s.source;
      reads = map entry_view s.log.items;
      failed = option_map entry_view s.failed;
      damaged = map entry_view s.damaged.items;
    } };

    ghost invariant = { λ s. WhereBytes (R.bytes s.source) (IsKept (record {
      header = s.layout;
      bytes = R.bytes s.source;
      count = R.faults s.source;
      reads = map entry_view s.log.items;
      failed = option_map entry_view s.failed;
      damaged = map entry_view s.damaged.items;
    })) };
}

impl<R: Ranged> BlockFile<R> {
    /// The file that a source holds, of which nothing was read yet but its header.
    pub(crate) fn of_layout(alloc: Global, source: R, layout: Layout) -> BlockFile<R>
        requires { WhereBytes (R.bytes source) (IsFileWith layout) }
        ensures { result ≡ record { header = layout; bytes = R.bytes source; count = R.faults source; reads = []; failed = None; damaged = [] } }
    {
        BlockFile {
            alloc,
            source,
            layout,
            log: Vec::new(alloc),
            failed: None,
            damaged: Vec::new(alloc),
        }
    }

    /// The reads that succeeded, in order.
    pub fn log(&self) -> &[ReadEntry]
        ensures log { map entry_view result.now ≡ self.now.reads }
        ensures kept { WhereBytes self.now.bytes (IsKept self.now) }
    {
        self.log.as_slice()
    }

    /// The last read that failed.
    pub fn failed(&self) -> Option<&ReadEntry>
        ensures { option_map (λ e. entry_view e.now) result ≡ self.now.failed }
    {
        self.failed.as_ref()
    }

    /// The first read that failed since the range of its pair is damaged.
    pub fn damage(&self) -> Option<&ReadEntry>
        ensures { option_map (λ e. entry_view e.now) result ≡ slice_get self.now.damaged 0 }
    {
        self.damaged.as_slice().first()
    }

    /// The source, which tells the file's bytes, with the faults that it has counted.
    pub fn source(&self) -> &R
        ensures bytes { R.bytes result.now ≡ self.now.bytes }
        ensures faults { R.faults result.now ≡ self.now.count }
    {
        &self.source
    }

    /// Reads the column of a block and a name that exist, of its range. None where it is damaged. Of the file only the source's count may change.
    fn fetch(&mut self, block: u32, name: &FieldName) -> Result<Option<ColumnRef>, PieceError>
        requires block { block < length self.old.header.zones.lengths }
        requires column { has_name name.now (field_names self.old.header.zones.columns) ≡ true }
        ensures only { self.new ≡ counted_to self.old self.new.count }
        ensures later { self.old.count ≤ self.new.count }
        ensures cause { result ≡ Err PieceError.ReadFault → one_more self.old.count ≤ self.new.count }
        ensures quiet { IfOk result (λ _. self.new.count ≡ self.old.count) }
        ensures memory { result ≡ Err PieceError.NoMemory → self.new.count ≡ self.old.count }
        ensures file { WhereBytes self.old.bytes (IsFileWith self.old.header) }
        ensures column { IfOk result (λ found. IfSome found (IsColumnIn self.old.header.zones block name.now)) }
        ensures range { IfOk result (λ found. WhereBytes self.old.bytes (λ bytes. IsRangeRead (content_at self.old.header bytes) block name.now found)) }
    {
        read_column(self.alloc, &self.layout, &mut self.source, block, name)
    }

    /// Logs a read that succeeded, of values that are those of its pair, and answers its column.
    fn log_read(&mut self, read: ReadEntry, column: ColumnRef) -> Result<ColumnRef, StoreError>
        requires { WhereBytes self.old.bytes (λ bytes. IsSound self.old.header bytes (entry_view read)) }
        ensures { LeavesRead self.old self.new (entry_view read) column result }
    {
        self.log.push(read)?;
        Ok(column)
    }

    /// Puts a read of a damaged pair behind those that failed so, and makes it the last that failed.
    fn fail_by_damage(&mut self, read: ReadEntry) -> Result<ColumnRef, StoreError>
        requires { WhereBytes self.old.bytes (λ bytes. IsSpoilt self.old.header bytes (entry_view read)) }
        ensures { LeavesFailed (after_damage self.old (entry_view read)) self.old self.new result }
    {
        self.damaged.push(entry(read.block, &read.name)?)?;
        self.failed = Some(read);
        Err(StoreError::Failed)
    }

    /// Makes a read that met a fault of the source the last that failed.
    fn fail_by_fault(&mut self, read: ReadEntry) -> Result<ColumnRef, StoreError>
        ensures failed { result ≡ Err StoreError.Failed }
        ensures left { self.new ≡ after_fault self.old (entry_view read) }
    {
        self.failed = Some(read);
        Err(StoreError::Failed)
    }

    /// Reads a column. The entry of the read is made before the source is asked, so that a fault is never told as want of memory.
    fn read_pair(&mut self, block: u32, name: &FieldName) -> Result<ColumnRef, StoreError>
        requires block { block < length self.old.header.zones.lengths }
        requires column { has_name name.now (field_names self.old.header.zones.columns) ≡ true }
        ensures { IsReadOf self.old self.new block name.now result }
    {
        let read = entry(block, name)?;
        match self.fetch(block, name) {
            Ok(Some(column)) => self.log_read(read, column),
            Ok(None) => self.fail_by_damage(read),
            Err(PieceError::NoMemory) => Err(StoreError::NoMemory),
            Err(PieceError::ReadFault) => self.fail_by_fault(read),
        }
    }
}

impl<R: Ranged> ColumnStore for BlockFile<R> {
    ghost seen = { file_seen };

    ghost moves = { IsLaterFile };

    ghost stays = { later_file };

    ghost goes_on = { later_file_on };

    fn zones(&self) -> &ZoneMap
        ensures zones { result.now ≡ self.now.header.zones }
        ensures agrees { WhereTold (file_seen self.now).held (AgreesWith self.now.header.zones) }
    {
        self.layout.zones()
    }

    fn read(&mut self, block: u32, name: &FieldName) -> Result<ColumnRef, StoreError>
        requires block { block < length self.old.header.zones.lengths }
        requires column { has_name name.now (field_names self.old.header.zones.columns) ≡ true }
        ensures same { IsSameStore (file_seen self.old) (file_seen self.new) }
        ensures reads { Reads (file_seen self.old) (file_seen self.new) block name.now result }
        ensures moves { IsLaterFile self.old self.new }
        ensures same_file { IsSameFile self.old self.new }
        ensures file { ReadsFile self.old self.new block name.now result }
    {
        self.read_pair(block, name)
    }
}

/// The read of a block and a name.
fn entry(block: u32, name: &FieldName) -> Result<ReadEntry, AllocError>
    ensures { IfOk result (λ e. entry_view e ≡ (block, name.now)) }
{
    Ok(ReadEntry {
        block,
        name: name.clone()?,
    })
}
