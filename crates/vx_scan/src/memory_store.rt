// A store over columns in memory, for tests and for callers that have them all.
ghost use Rattle.std.specs.Prelude.{◌≡◌, ◌-◌, ◌^◌, ◌<◌, true, false, cond, [], length, map, None, option_map, IfOk, IsErrOf, All};
ghost use Rattle.vx_dtype.specs.TypeRules.{has_name, field_names};
ghost use Rattle.vx_io.specs.Counts.{one_more, is_listed};
ghost use Rattle.vx_tables.specs.Blocks.{block_view, table_of_blocks, table_refusal};
ghost use Rattle.vx_scan.specs.Stores.{AgreesWith, IsSameStore, Reads};
ghost use Rattle.vx_scan.specs.StoreViews.{entry_view, store_seen};
ghost use Rattle.vx_scan.specs.StoreAnswers.{MakesStore, new_store};
ghost use Rattle.vx_scan.specs.StoreMoves.{IsSameTable, same_table, same_table_on};

use crate::errors::StoreError;
use crate::stores::{ColumnStore, ReadEntry};
use std::alloc::{AllocError, Global};
use std::marker::Model;
use vx_column::ColumnRef;
use vx_dtype::{FieldName, Mem, NoMemory};
use vx_tables::{TableError, have_lengths, have_types, held_column};
use vx_zones::ZoneMap;

/// The columns of a table in memory as a store that tells it, and that fails at the reads whose numbers are listed.
#[derive(Debug, Drop)]
pub struct MemoryStore {
    zones: ZoneMap,
    blocks: Vec<Vec<ColumnRef>>,
    fail: Vec<u64>,
    calls: u64,
    log: Vec<ReadEntry>,
    failed: Option<ReadEntry>,
    faults: u64,
}

impl Model for MemoryStore {
    ghost use Rattle.std.specs.Prelude.{◌≡◌, true, map, option_map};
    ghost use Rattle.std.specs.List.{list_all};
    ghost use Rattle.vx_scan.specs.StoreViews.{StoreState};
    ghost use Rattle.vx_scan.specs.StoreCodes.{coded_store};

    ghost Value = { StoreState };

    ghost coded = { coded_store };

    ghost use Rattle.vx_scan.specs.StoreViews.{entry_view};
    ghost use Rattle.vx_tables.specs.Blocks.{block_view, have_lengths, have_types, block_fits};

    ghost view = { λ s. record {
      zones = s.zones;
      blocks = map block_view s.blocks.items;
      listed = s.fail.items;
      calls = s.calls;
      reads =
          map entry_view s.log.items;
      failed = option_map entry_view s.failed;
      faults = s.faults;
    } };

    ghost invariant = { λ s. (have_lengths s.zones (map block_view s.blocks.items) ≡ true) × (have_types s.zones (map block_view s.blocks.items) ≡ true)
        × (list_all block_fits (map block_view s.blocks.items) ≡ true) };
}

impl MemoryStore {
    /// A store of these blocks of columns that fails at the reads whose numbers, from 1, are listed. WrongLength exactly
    /// where the number of blocks, of a block's columns or of a column's rows differs from the zones'; else WrongType
    /// exactly where a column's type differs.
    pub fn try_new(
        alloc: Global,
        zones: ZoneMap,
        blocks: Vec<Vec<ColumnRef>>,
        fail: Vec<u64>,
    ) -> Result<MemoryStore, TableError>
        requires countable { All (λ n. n < 2 ^ 64 - 1) fail.items }
        ensures { MakesStore zones (map block_view blocks.items) fail.items result }
    {
        if !have_lengths(&zones, blocks.as_slice()) {
            return Err(TableError::WrongLength);
        }
        if !have_types(&zones, blocks.as_slice()) {
            return Err(TableError::WrongType);
        }
        Ok(MemoryStore {
            zones,
            blocks,
            fail,
            calls: 0,
            log: Vec::new(alloc),
            failed: None,
            faults: 0,
        })
    }

    /// A store of these blocks of columns, which are a table with these zones. No read of it fails.
    pub fn of_table(alloc: Global, zones: ZoneMap, blocks: Vec<Vec<ColumnRef>>) -> Mem<MemoryStore>
        requires { table_refusal zones (map block_view blocks.items) ≡ None }
        ensures { IfOk result (λ store. store ≡ new_store zones (map block_view blocks.items) []) }
    {
        match MemoryStore::try_new(alloc, zones, blocks, Vec::new(alloc)) {
            Ok(store) => Ok(store),
            Err(TableError::NoMemory) => Err(NoMemory),
            Err(TableError::WrongLength) => unreachable!(),
            Err(TableError::WrongType) => unreachable!(),
        }
    }

    /// The reads that succeeded, in order.
    pub fn log(&self) -> &[ReadEntry]
        ensures { map entry_view result.now ≡ self.now.reads }
    {
        self.log.as_slice()
    }

    /// The last read that failed.
    pub fn failed(&self) -> Option<&ReadEntry>
        ensures { option_map (λ e. entry_view e.now) result ≡ self.now.failed }
    {
        self.failed.as_ref()
    }

    /// How many reads failed; at 2^64 - 1 the count stays.
    pub fn faults(&self) -> u64
        ensures { result ≡ self.now.faults }
    {
        self.faults
    }
}

impl ColumnStore for MemoryStore {
    ghost seen = { store_seen };

    ghost moves = { IsSameTable };

    ghost stays = { same_table };

    ghost goes_on = { same_table_on };

    fn zones(&self) -> &ZoneMap
        ensures zones { result.now ≡ self.now.zones }
        ensures agrees { AgreesWith self.now.zones (table_of_blocks self.now.zones self.now.blocks) }
    {
        &self.zones
    }

    fn read(&mut self, block: u32, name: &FieldName) -> Result<ColumnRef, StoreError>
        requires block { block < length self.old.zones.lengths }
        requires column { has_name name.now (field_names self.old.zones.columns) ≡ true }
        ensures same { IsSameStore (store_seen self.old) (store_seen self.new) }
        ensures reads { Reads (store_seen self.old) (store_seen self.new) block name.now result }
        ensures moves { IsSameTable self.old self.new }
        ensures listed { IfOk result (λ _. is_listed (one_more self.old.calls) self.old.listed ≡ false) }
        ensures failure { IsErrOf result StoreError.Failed → is_listed (one_more self.old.calls) self.old.listed ≡ true }
        ensures count { self.new.faults ≡ cond (is_listed (one_more self.old.calls) self.old.listed) (one_more self.old.faults) self.old.faults }
        ensures calls { self.new.calls ≡ one_more self.old.calls }
        ensures same_columns { self.new.blocks ≡ self.old.blocks }
        ensures same_listed { self.new.listed ≡ self.old.listed }
    {
        self.calls = self.calls.saturating_add(1);
        if self.fail.contains(&self.calls) {
            self.faults = self.faults.saturating_add(1);
            self.failed = Some(entry(block, name)?);
            return Err(StoreError::Failed);
        }
        let column = held_column(&self.zones, self.blocks.as_slice(), block, name).clone()?;
        self.log.push(entry(block, name)?)?;
        Ok(column)
    }
}

/// The read of a block and a name.
fn entry(block: u32, name: &FieldName) -> Result<ReadEntry, AllocError>
    ensures { IfOk result (λ e. entry_view e ≡ (block, name.now)) }
{
    Ok(ReadEntry {
        block,
        name: name.clone()?,
    })
}
