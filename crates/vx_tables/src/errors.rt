// Why blocks of columns are no table.

/// Why blocks of columns are no table with given zones.
#[derive(PartialEq, Eq, Debug, Drop)]
pub enum TableError {
    /// There was no memory.
    NoMemory,
    /// Exactly where the number of blocks, of a block's columns or of a column's rows differs from the zones'.
    WrongLength,
    /// Exactly where those agree, and a column's type differs from the zones'.
    WrongType,
}
