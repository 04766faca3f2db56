// The block files of a folder as a store.
ghost use Rattle.std.specs.Prelude.{◌≡◌, ◌<◌, ◌≤◌, true, [], length, map, None, Err, option_map, IfOk, IfSome};
ghost use Rattle.std.specs.List.{slice_get};
ghost use Rattle.vx_dtype.specs.TypeRules.{has_name, field_names};
ghost use Rattle.vx_scan.specs.Stores.{WhereTold, AgreesWith, IsSameStore, Reads};
ghost use Rattle.vx_scan.specs.StoreViews.{entry_view};
ghost use Rattle.vx_file_open.specs.ColumnAnswers.{IsColumnIn, IsRangeRead};
ghost use Rattle.vx_folder.specs.FolderStates.{folder_seen, WhereHeld, IsSound, IsSpoilt, IsKeptFolder, IsSameFolder, IsReadFolder, ReadsFolder};
ghost use Rattle.vx_folder.specs.FolderStates.{after_fault, after_damage, LeavesRead, LeavesFailed, IsReadOf};
ghost use Rattle.vx_folder.specs.FolderMoves.{read_folder, read_folder_on};
ghost use Rattle.vx_folder.specs.FolderParts.{AreParts, held_of, parts_view};

use crate::parts::FolderParts;
use crate::reading::{Found, OpenPart, fetch};
use std::alloc::AllocError;
use std::marker::Model;
use vx_column::ColumnRef;
use vx_dtype::FieldName;
use vx_file_ranges::PieceError;
use vx_files::Files;
use vx_scan::{ColumnStore, ReadEntry, StoreError};
use vx_zones::ZoneMap;

/// The block files of a folder, one behind another, as a store: it reads the range of a column in the file where its block stands, and opens that file where
/// another one is open. It holds what the files hold together, known to the spec where it is known what their paths lead to. Where a range isn't the values of
/// its column, that pair of a block and a column is damaged.
///
/// It is read up to the first read that fails: each later one is refused as if there were no memory, and a scan makes none. A read fails where a file can't be
/// opened again, isn't what it was, or isn't read, which counts one fault; or where the pair is damaged. In the second case the read is put behind those that
/// failed so, which count as faults too. Where there is no memory for a read, the folder is as it was.
#[derive(Drop)]
pub struct Folder<'f, F: Files> {
    parts: FolderParts<'f, F>,
    part: Option<OpenPart<F::File>>,
    count: u64,
    log: Vec<ReadEntry>,
    failed: Option<ReadEntry>,
    damaged: Vec<ReadEntry>,
}

impl<'f, F: Files> Model for Folder<'f, F> {
    ghost use Rattle.std.specs.Prelude.{map, option_map, IfSome};
    ghost use Rattle.vx_folder.specs.FolderStates.{FolderState};
    ghost use Rattle.vx_folder.specs.FolderCodes.{coded_folder};

    ghost Value = { FolderState };

    ghost coded = { coded_folder };

    ghost use Rattle.vx_scan.specs.StoreViews.{entry_view};
    ghost use Rattle.vx_folder.specs.FolderStates.{WhereHeld, IsKeptFolder};
    ghost use Rattle.vx_folder.specs.FolderParts.{AreParts, IsFileAt, held_of, parts_view};

    ghost view = { λ s. record {
      zones = s.parts.zones;
      content = held_of (parts_view (F.kept s.parts.files.now) s.parts);
      count = s.count;
      reads = map entry_view s.log.items;
      failed = option_map entry_view s.failed;
      damaged = map entry_view s.damaged.items;
    } };

    ghost invariant = { λ s. let parts = parts_view (F.kept s.parts.files.now) s.parts in
        AreParts parts × IfSome s.part (λ part. IsFileAt parts part.number (F.File.bytes part.file.source) part.file.layout)
        × WhereHeld (held_of parts) (IsKeptFolder (record {
          zones = s.parts.zones;
          content = held_of parts;
          count = s.count;
          reads = map entry_view s.log.items;
          failed = option_map entry_view s.failed;
          damaged = map entry_view s.damaged.items;
        })) };
}

impl<'f, F: Files> Folder<'f, F> {
    /// The store of the files of a folder, of which nothing was read yet but their headers.
    pub(crate) fn of_parts(parts: FolderParts<'f, F>) -> Folder<'f, F>
        requires { AreParts (parts_view (F.kept parts.files.now) parts) }
        ensures { result ≡ record {
          zones = parts.entry.zones;
          content = held_of (parts_view (F.kept parts.entry.files.now) parts.entry);
          count = 0;
          reads = [];
          failed = None;
          damaged = [];
        } }
    {
        let alloc = parts.alloc;
        Folder {
            parts,
            part: None,
            count: 0,
            log: Vec::new(alloc),
            failed: None,
            damaged: Vec::new(alloc),
        }
    }

    /// The reads that succeeded, in order.
    pub fn log(&self) -> &[ReadEntry]
        ensures log { map entry_view result.now ≡ self.now.reads }
        ensures kept { WhereHeld self.now.content (IsKeptFolder self.now) }
    {
        self.log.as_slice()
    }

    /// The last read that failed.
    pub fn failed(&self) -> Option<&ReadEntry>
        ensures { option_map (λ e. entry_view e.now) result ≡ self.now.failed }
    {
        self.failed.as_ref()
    }

    /// The first read that failed since the range of its pair is damaged.
    pub fn damage(&self) -> Option<&ReadEntry>
        ensures { option_map (λ e. entry_view e.now) result ≡ slice_get self.now.damaged 0 }
    {
        self.damaged.as_slice().first()
    }

    /// How many faults were counted; at 2^64 - 1 the count stays.
    pub fn faults(&self) -> u64
        ensures { result ≡ self.now.count }
    {
        self.count
    }

    /// Reads the column of a block and a name that exist, of its range. None where it is damaged. The folder stays as it is seen.
    fn find(&mut self, block: u32, name: &FieldName) -> Result<Option<ColumnRef>, PieceError>
        requires block { block < length self.old.zones.lengths }
        requires column { has_name name.now (field_names self.old.zones.columns) ≡ true }
        ensures same { self.new ≡ self.old }
        ensures kept { WhereHeld self.old.content (IsKeptFolder self.old) }
        ensures column { IfOk result (λ found. IfSome found (IsColumnIn self.old.zones block name.now)) }
        ensures range { IfOk result (λ found. WhereHeld self.old.content (λ content. IsRangeRead content block name.now found)) }
    {
        let Found { column, part } = fetch(&self.parts, self.part.take(), block, name)?;
        self.part = Some(part);
        Ok(column)
    }

    /// Logs a read that succeeded, of values that are those of its pair, and answers its column.
    fn log_read(&mut self, read: ReadEntry, column: ColumnRef) -> Result<ColumnRef, StoreError>
        requires { WhereHeld self.old.content (λ content. IsSound content (entry_view read)) }
        ensures { LeavesRead self.old self.new (entry_view read) column result }
    {
        self.log.push(read)?;
        Ok(column)
    }

    /// Puts a read of a damaged pair behind those that failed so, and makes it the last that failed.
    fn fail_by_damage(&mut self, read: ReadEntry) -> Result<ColumnRef, StoreError>
        requires { WhereHeld self.old.content (λ content. IsSpoilt content (entry_view read)) }
        ensures { LeavesFailed (after_damage self.old (entry_view read)) self.old self.new result }
    {
        self.damaged.push(entry(read.block, &read.name)?)?;
        self.failed = Some(read);
        Err(StoreError::Failed)
    }

    /// Makes a read that met a fault, which is counted, the last that failed.
    fn fail_by_fault(&mut self, read: ReadEntry) -> Result<ColumnRef, StoreError>
        ensures failed { result ≡ Err StoreError.Failed }
        ensures left { self.new ≡ after_fault self.old (entry_view read) }
        ensures later { self.old.count ≤ self.new.count }
    {
        self.count = self.count.saturating_add(1);
        self.failed = Some(read);
        Err(StoreError::Failed)
    }

    /// Reads a column. The entry of the read is made before the file is asked, so that a fault is never told as want of memory.
    fn read_pair(&mut self, block: u32, name: &FieldName) -> Result<ColumnRef, StoreError>
        requires block { block < length self.old.zones.lengths }
        requires column { has_name name.now (field_names self.old.zones.columns) ≡ true }
        ensures { IsReadOf self.old self.new block name.now result }
    {
        let read = entry(block, name)?;
        match self.find(block, name) {
            Ok(Some(column)) => self.log_read(read, column),
            Ok(None) => self.fail_by_damage(read),
            Err(PieceError::NoMemory) => Err(StoreError::NoMemory),
            Err(PieceError::ReadFault) => self.fail_by_fault(read),
        }
    }
}

impl<'f, F: Files> ColumnStore for Folder<'f, F> {
    ghost seen = { folder_seen };

    ghost moves = { IsReadFolder };

    ghost stays = { read_folder };

    ghost goes_on = { read_folder_on };

    fn zones(&self) -> &ZoneMap
        ensures zones { result.now ≡ self.now.zones }
        ensures agrees { WhereTold (folder_seen self.now).held (AgreesWith self.now.zones) }
    {
        &self.parts.zones
    }

    fn read(&mut self, block: u32, name: &FieldName) -> Result<ColumnRef, StoreError>
        requires block { block < length self.old.zones.lengths }
        requires column { has_name name.now (field_names self.old.zones.columns) ≡ true }
        ensures same { IsSameStore (folder_seen self.old) (folder_seen self.new) }
        ensures reads { Reads (folder_seen self.old) (folder_seen self.new) block name.now result }
        ensures moves { IsReadFolder self.old self.new }
        ensures same_folder { IsSameFolder self.old self.new }
        ensures folder { ReadsFolder self.old self.new block name.now result }
    {
        if self.failed.is_some() {
            return Err(StoreError::NoMemory);
        }
        self.read_pair(block, name)
    }
}

/// The read of a block and a name.
fn entry(block: u32, name: &FieldName) -> Result<ReadEntry, AllocError>
    ensures { IfOk result (λ e. entry_view e ≡ (block, name.now)) }
{
    Ok(ReadEntry {
        block,
        name: name.clone()?,
    })
}
