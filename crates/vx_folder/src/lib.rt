//! The block files of a folder as one store: opening them together, and reading their columns; or as one table by their headers alone.
#![tactic(auto)]

mod errors;
mod folders;
mod gathering;
mod names;
mod opening;
mod part_files;
mod parts;
mod reading;
mod tables;

pub use errors::FolderError;
pub use folders::Folder;
pub use opening::{folder_table, open_folder};
pub use tables::FolderTable;
