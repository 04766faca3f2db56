// Where the columns of a scan come from.
ghost use Rattle.std.specs.Prelude.{◌≡◌, ◌<◌, true, length};
ghost use Rattle.vx_dtype.specs.TypeRules.{has_name, field_names};
ghost use Rattle.vx_scan.specs.Stores.{StoreSeen, WhereTold, AgreesWith, IsSameStore, Reads};

use crate::errors::StoreError;
use vx_column::ColumnRef;
use vx_dtype::FieldName;
use vx_zones::ZoneMap;

/// A read of a column: the number of its block, counted from 0, and the column's name.
#[derive(PartialEq, Eq, Debug, Drop)]
pub struct ReadEntry {
    pub block: u32,
    pub name: FieldName,
}

/// A store of the columns of a table in blocks. What is seen of it: the zones; the table, where it tells it; the reads so far, in order; the number
/// of its faults, which never falls; the last read that failed; and whether it is known to count no fault. A count of faults of 2^64 - 1 counts as
/// risen.
///
/// What else an instance knows of its states it says by what calls may make of it, from one state to another (`moves`): each call does that, a state may
/// stay as it is, and what calls make of it one behind another is of the same kind. So it holds behind every function over stores.
pub trait ColumnStore {
    ghost seen: { Self → StoreSeen };

    /// What calls may make of a store, from one state to another.
    ghost moves: { Self → Self → Type 0 };

    /// The statistics of the table, with its columns and the number of rows of each block.
    fn zones(&self) -> &ZoneMap
        ensures zones { result.now ≡ (seen self.now).zones }
        ensures agrees { WhereTold (seen self.now).held (AgreesWith (seen self.now).zones) };

    /// Reads a column of a block that exist: it has the column's type and the block's length. The read is logged where
    /// it succeeds. It fails only where a fault was counted, and is then the last that failed.
    fn read(&mut self, block: u32, name: &FieldName) -> Result<ColumnRef, StoreError>
        requires block { block < length (seen self.old).zones.lengths }
        requires column { has_name name.now (field_names (seen self.old).zones.columns) ≡ true }
        ensures same { IsSameStore (seen self.old) (seen self.new) }
        ensures reads { Reads (seen self.old) (seen self.new) block name.now result }
        ensures moves { moves self.old self.new };

    /// A store may stay as it is.
    ghost stays: { (s : Self) → moves s s };

    /// What calls make of a store one behind another, calls may make of it.
    ghost goes_on: { (a b c : Self) → moves a b → moves b c → moves a c };
}
