// Packs of its fields in the place of the row.

ghost use Rattle.vx_laws_simplifying.specs.PackedRows.{PackedRowsKeepMeaning, PackedRowsKeepType};

/// Over a struct that isn't nullable, an expression in which packs of exactly its fields stand for the row has the same strict type, or the same refusal.
pub fn packed_rows_keep_type()
    ensures { PackedRowsKeepType }
{}

/// Where the names of these fields are distinct, that expression means the same,
/// typed or not, at each row that fits the struct's type but for faults.
pub fn packed_rows_keep_meaning()
    ensures { PackedRowsKeepMeaning }
{}
