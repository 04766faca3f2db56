// The headers of block files.
use vx_dtype::StructFields;
use vx_zones::ZoneStat;

/// What the header of a block file holds: the columns of a table, how many rows each block has, the statistics, and how long the range of each column is.
/// A header that was read has a range for each column of each block; its statistics may break the rules of zones on names and statistics that stand twice.
#[derive(Debug, Drop)]
pub struct FileHeader {
    /// The columns.
    pub fields: StructFields,
    /// The number of rows of each block.
    pub lengths: Vec<u32>,
    /// The statistics, in order.
    pub stats: Vec<ZoneStat>,
    /// Block by block, how many bytes the range of each column has.
    pub range_lengths: Vec<Vec<u32>>,
}
