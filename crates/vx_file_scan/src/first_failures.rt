// A block file that is read up to the first read that fails.
ghost use Rattle.std.specs.Prelude.{◌≡◌, ◌<◌, true, length};
ghost use Rattle.vx_dtype.specs.TypeRules.{has_name, field_names};
ghost use Rattle.vx_scan.specs.Stores.{WhereTold, AgreesWith, IsSameStore, Reads};
ghost use Rattle.vx_file_open.specs.Layouts.{WhereBytes};
ghost use Rattle.vx_file.specs.FileStates.{IsKept, file_seen};
ghost use Rattle.vx_file_scan.specs.FirstFailures.{IsReadToFailure};
ghost use Rattle.vx_file_scan.specs.FailureMoves.{read_to_failure, read_to_failure_on};

use std::marker::Model;
use vx_column::ColumnRef;
use vx_dtype::FieldName;
use vx_file::BlockFile;
use vx_file_ranges::Ranged;
use vx_scan::{ColumnStore, StoreError};
use vx_zones::ZoneMap;

/// A block file that is read up to the first read that fails: each later one is refused as if there were no memory, and a scan makes none. So what failed,
/// and whether by damage, is told by what is left, whatever calls were made of it.
#[derive(Drop)]
pub struct FirstFailure<R: Ranged> {
    file: BlockFile<R>,
}

impl<R: Ranged> Model for FirstFailure<R> {
    ghost use Rattle.vx_file.specs.FileStates.{FileState};
    ghost use Rattle.vx_file.specs.FileCodes.{coded_file};

    ghost Value = { FileState };

    ghost coded = { coded_file };

    ghost view = { λ s. s.file };
}

impl<R: Ranged> FirstFailure<R> {
    /// The file as a store that is read up to the first read that fails; where one has failed already, none is made of it.
    pub fn new(file: BlockFile<R>) -> FirstFailure<R>
        ensures { result ≡ file }
    {
        FirstFailure { file }
    }

    /// The file as it was left.
    pub fn into_file(self) -> BlockFile<R>
        ensures file { result ≡ self }
        ensures kept { WhereBytes self.bytes (IsKept self) }
    {
        let FirstFailure { file } = self;
        let _ = file.log();
        file
    }
}

impl<R: Ranged> ColumnStore for FirstFailure<R> {
    ghost seen = { file_seen };

    ghost moves = { IsReadToFailure };

    ghost stays = { read_to_failure };

    ghost goes_on = { read_to_failure_on };

    fn zones(&self) -> &ZoneMap
        ensures zones { result.now ≡ self.now.header.zones }
        ensures agrees { WhereTold (file_seen self.now).held (AgreesWith self.now.header.zones) }
    {
        self.file.zones()
    }

    fn read(&mut self, block: u32, name: &FieldName) -> Result<ColumnRef, StoreError>
        requires block { block < length self.old.header.zones.lengths }
        requires column { has_name name.now (field_names self.old.header.zones.columns) ≡ true }
        ensures same { IsSameStore (file_seen self.old) (file_seen self.new) }
        ensures reads { Reads (file_seen self.old) (file_seen self.new) block name.now result }
        ensures moves { IsReadToFailure self.old self.new }
    {
        if self.file.failed().is_some() {
            return Err(StoreError::NoMemory);
        }
        self.file.read(block, name)
    }
}
