//! The scan that a request holds: one function of its bytes, and the first refusal in the order of its places; and the same of a request of the scan of a
//! block file, and of a table alone.
#![tactic(auto)]

mod cells;
mod columns;
mod errors;
mod file_requests;
mod objects;
mod request_members;
mod requests;
mod stats;
mod tables;
mod types;

pub use errors::{FilePlace, FileRequestError, FileText, Place, RequestError, Side, TableRefusal};
pub use file_requests::{FileRequest, decode_file_request};
pub use requests::{MOST_BYTES, ScanRequest, decode_request, hex_bytes};
pub use tables::{ToldTable, decode_table};
