// The columns of a block, read in order.
ghost use Rattle.std.specs.Prelude.{◌≡◌, ◌<◌, true, [], ◌∷◌, length, Some, option_copied, IfOk};
ghost use Rattle.std.specs.List.{list_all, slice_get};
ghost use Rattle.vx_dtype.specs.TypeRules.{has_name, field_names};
ghost use Rattle.vx_semantics.specs.Scans.{reads_in};
ghost use Rattle.vx_scan.specs.Stores.{IsSameStore, IsColumnOf};
ghost use Rattle.vx_scan.specs.Steps.{ending, MakesReads, further_names, AreColumnsOf};

use crate::errors::{ScanError, StoreError};
use crate::stores::ColumnStore;
use std::alloc::Global;
use vx_column::ColumnRef;
use vx_dtype::{FieldName, FieldNames};
use vx_zones::ZoneMap;

/// How many rows a block has.
pub(crate) fn block_length(zones: &ZoneMap, block: u32) -> usize
    requires { block < length zones.now.lengths }
    ensures { slice_get zones.now.lengths block ≡ Some result }
{
    zones.lengths()[block as usize] as usize
}

/// The columns of a block of these names, in order. Those under names that are known already aren't read again, and each other one is read.
pub(crate) fn read_columns<S: ColumnStore>(
    alloc: Global,
    store: &mut S,
    block: u32,
    names: &[FieldName],
    known_names: &FieldNames,
    known: &[ColumnRef],
) -> Result<Vec<ColumnRef>, ScanError>
    requires block { block < length (S.seen store.old).zones.lengths }
    requires names { list_all (λ n. has_name n (field_names (S.seen store.old).zones.columns)) names.now ≡ true }
    requires lengths { length known_names.now ≡ length known.now }
    ensures same { IsSameStore (S.seen store.old) (S.seen store.new) }
    ensures moves { S.moves store.old store.new }
    ensures reads { MakesReads (reads_in block (further_names known_names.now names.now)) (S.seen store.old) (S.seen store.new) (ending result) }
    ensures columns { AreColumnsOf (S.seen store.old) block known_names.now known.now →
        IfOk result (λ columns. AreColumnsOf (S.seen store.old) block names.now columns.items) }
{
    let mut columns = Vec::new(alloc);
    for i in 0..names.len() {
        let column = read_unless_known(store, block, &names[i], known_names, known)?;
        columns.push(column)?;
    }
    Ok(columns)
}

/// The column of a block of this name: the one that is known under it, else it is read.
fn read_unless_known<S: ColumnStore>(
    store: &mut S,
    block: u32,
    name: &FieldName,
    known_names: &FieldNames,
    known: &[ColumnRef],
) -> Result<ColumnRef, ScanError>
    requires block { block < length (S.seen store.old).zones.lengths }
    requires column { has_name name.now (field_names (S.seen store.old).zones.columns) ≡ true }
    requires lengths { length known_names.now ≡ length known.now }
    ensures same { IsSameStore (S.seen store.old) (S.seen store.new) }
    ensures moves { S.moves store.old store.new }
    ensures reads { MakesReads (reads_in block (further_names known_names.now (name.now ∷ []))) (S.seen store.old) (S.seen store.new) (ending result) }
    ensures column { AreColumnsOf (S.seen store.old) block known_names.now known.now →
        IfOk result (λ column. IsColumnOf (S.seen store.old) block name.now column) }
{
    match known_names.position(name) {
        Some(place) => Ok(known[place].clone()?),
        None => read_column(store, block, name),
    }
}

/// The column of a block of this name, read from the store.
fn read_column<S: ColumnStore>(
    store: &mut S,
    block: u32,
    name: &FieldName,
) -> Result<ColumnRef, ScanError>
    requires block { block < length (S.seen store.old).zones.lengths }
    requires column { has_name name.now (field_names (S.seen store.old).zones.columns) ≡ true }
    ensures same { IsSameStore (S.seen store.old) (S.seen store.new) }
    ensures moves { S.moves store.old store.new }
    ensures reads { MakesReads ((block, name.now) ∷ []) (S.seen store.old) (S.seen store.new) (ending result) }
    ensures column { IfOk result (λ column. IsColumnOf (S.seen store.old) block name.now column) }
{
    match store.read(block, name) {
        Ok(column) => Ok(column),
        Err(StoreError::NoMemory) => Err(ScanError::NoMemory),
        Err(StoreError::Failed) => Err(ScanError::StoreFault),
    }
}
