// Some blocks of a store, one behind another, as a store of their own.
ghost use Rattle.std.specs.Prelude.{◌≡◌, ◌≤◌, length, IfOk, IfErr};
ghost use Rattle.vx_block_parts.specs.Parts.{seen_between};
ghost use Rattle.vx_block_parts.specs.PartMoves.{MovesPart, part_stays, part_goes_on};

use crate::part_zones::zones_between;
use std::alloc::Global;
use std::marker::Model;
use vx_column::ColumnRef;
use vx_dtype::{FieldName, NoMemory};
use vx_scan::{ColumnStore, StoreError};
use vx_zones::ZoneMap;

/// Some blocks of a store, one behind another, as a store: the first of them is block 0. It reads of the store just what is read of it, and shows of what
/// the store shows what is of these blocks: their statistics, the table of them where the store tells its table, the reads of them, and the last read that
/// failed where it was of one of them. Faults are the store's.
#[derive(Drop)]
pub struct BlockPart<S: ColumnStore> {
    from: u32,
    up_to: u32,
    zones: ZoneMap,
    store: S,
}

impl<S: ColumnStore> Model for BlockPart<S> {
    ghost use Rattle.vx_block_parts.specs.Parts.{Part, coded_part, IsPartOf};

    ghost Value = { Part S };

    ghost coded = { coded_part S.code };

    ghost view = { λ p. record { from = p.from; up_to = p.up_to; store = p.store } };

    ghost invariant = { λ p. IsPartOf p.from p.up_to p.zones (S.seen p.store) };
}

impl<S: ColumnStore> BlockPart<S> {
    /// The blocks of a store from one on, up to another one and without it, counted from 0. They may be none. Where there is no memory for their statistics
    /// the store is handed back.
    pub fn try_new(alloc: Global, store: S, from: u32, up_to: u32) -> Result<BlockPart<S>, S>
        requires order { from ≤ up_to }
        requires within { up_to ≤ length (S.seen store).zones.lengths }
        ensures part { IfOk result (λ part. part ≡ record { from = from; up_to = up_to; store = store }) }
        ensures again { IfErr result (λ again. again ≡ store) }
    {
        match zones_between(alloc, store.zones(), from as usize, up_to as usize) {
            Ok(zones) => Ok(BlockPart {
                from,
                up_to,
                zones,
                store,
            }),
            Err(NoMemory) => Err(store),
        }
    }

    /// The whole store.
    pub fn store(&self) -> &S
        ensures { result.now ≡ self.now.store }
    {
        &self.store
    }

    /// The whole store again, as it was left.
    pub fn into_store(self) -> S
        ensures { result ≡ self.store }
    {
        let BlockPart {
            from: _,
            up_to: _,
            zones: _,
            store,
        } = self;
        store
    }
}

impl<S: ColumnStore> ColumnStore for BlockPart<S> {
    ghost seen = { λ p. seen_between p.from p.up_to (S.seen p.store) };

    ghost moves = { MovesPart S.seen S.moves };

    ghost stays = { part_stays S.seen S.moves S.stays };

    ghost goes_on = { part_goes_on S.seen S.moves S.goes_on };

    fn zones(&self) -> &ZoneMap {
        &self.zones
    }

    fn read(&mut self, block: u32, name: &FieldName) -> Result<ColumnRef, StoreError> {
        let place = self.from + block;
        self.store.read(place, name)
    }
}
