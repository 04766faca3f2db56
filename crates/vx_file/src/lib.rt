//! Block files as stores: opening one over a source that is read by places, and reading its columns.
#![tactic(auto)]

mod block_file;
mod opening;

pub use block_file::BlockFile;
pub use opening::{OpenRefused, open_file};
pub use vx_file_bytes::{WriteFileError, write_file};
pub use vx_file_open::FileError;
pub use vx_file_ranges::{MemoryRange, RangeFailed, Ranged};
