// A store whose table isn't known to any clause: what it holds is found only by reading it.
ghost use Rattle.std.specs.Prelude.{◌≡◌, map};
ghost use Rattle.vx_dtype.specs.TypeRules.{has_name, field_names};
ghost use Rattle.vx_scan.specs.Stores.{IsSameStore, Reads, WhereTold, AgreesWith};
ghost use Rattle.vx_scan.specs.StoreViews.{entry_view};
ghost use Rattle.vx_cases.specs.UntoldStores.{untold_seen};

use vx_column::ColumnRef;
use vx_dtype::FieldName;
use vx_scan::{ColumnStore, MemoryStore, ReadEntry, StoreError};
use vx_zones::ZoneMap;

/// A store in memory that doesn't tell its table.
#[derive(Drop)]
pub(crate) struct UntoldStore {
    held: MemoryStore,
}

impl UntoldStore {
    /// A store over this one.
    pub(crate) fn new(held: MemoryStore) -> UntoldStore {
        UntoldStore { held }
    }

    /// The reads that succeeded, in order.
    pub(crate) fn log(&self) -> &[ReadEntry] {
        self.held.log()
    }
}

impl ColumnStore for UntoldStore {
    ghost seen = { untold_seen };

    ghost moves = { λ _ _. Unit {0} };

    ghost stays = { λ _. tt };

    ghost goes_on = { λ _ _ _ _ _. tt };

    fn zones(&self) -> &ZoneMap {
        self.held.zones()
    }

    fn read(&mut self, block: u32, name: &FieldName) -> Result<ColumnRef, StoreError> {
        self.held.read(block, name)
    }
}
