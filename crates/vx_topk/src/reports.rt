// The report of the first rows by a key.

use vx_dtype::DType;
use vx_scan::{BlockNumbers, RowValues};

/// The first rows by a key: the projection's type, its value at each of these rows, in the order of the key, and the blocks that were skipped.
#[derive(Debug, Drop)]
pub struct TopReport {
    pub dtype: DType,
    pub rows: RowValues,
    pub skipped: BlockNumbers,
}
