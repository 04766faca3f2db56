//! Block files as bytes in memory, written, and their headers and the ranges of their columns, read.
#![tactic(auto)]

mod columns_reading;
mod columns_writing;
mod errors;
mod fronts;
mod header_reading;
mod header_writing;
mod headers;
mod parts_writing;
mod range_reading;
mod statistics_reading;
mod writing;

pub use errors::WriteFileError;
pub use header_reading::read_header;
pub use headers::FileHeader;
pub use range_reading::read_range;
pub use writing::write_file;
