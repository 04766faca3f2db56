// The block files of a folder as one table, by their headers.
use vx_zones::ZoneMap;

/// The block files of a folder, of which nothing but the headers was read.
#[derive(Drop)]
pub struct FolderTable {
    /// The names of the files, in the ascending order of their bytes.
    pub names: Vec<String>,
    /// How many blocks stand before those of each.
    pub begins: Vec<usize>,
    /// Their statistics as one.
    pub zones: ZoneMap,
}
