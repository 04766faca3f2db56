//! The scan of a block file that a request holds: its report, or the first reason why it has none.
#![tactic(auto)]

mod errors;
mod file_bytes;
mod laws;
mod scanning;

pub use errors::{FilePart, FileScanError};
pub use file_bytes::FileBytes;
pub use laws::file_scans_end_one_way;
pub use scanning::{ScannedFile, scan_requested_file};
