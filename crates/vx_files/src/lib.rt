//! Where files are opened by their paths and kept under them: in memory, and of the operating system.
#![tactic(auto)]

mod disk_files;
mod disk_folders;
mod errors;
mod files;
mod memory_files;
mod memory_folders;

pub use disk_files::DiskFiles;
pub use errors::{KeepError, OpenError};
pub use files::{Files, NamedBytes, is_folder};
pub use memory_files::{MemoryFile, MemoryFiles};
