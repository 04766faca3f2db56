//! The calls that other languages make, over bytes alone: a schema is a text of JSON, a filter its wire bytes, and columns are arrays of a body of bytes.
#![tactic(auto)]

mod answers;
mod arrays;
mod asked;
mod errors;
mod filters;
mod laws;
mod lists;
mod predicates;
mod row_truths;
mod schemas;
mod statistics;
mod wire;
mod zone_maps;
mod zones;

pub use answers::{Answer, answer_of};
pub use asked::filter_columns;
pub use errors::{ARRAYS, BAD_CAST, CallError, FILTER, NO_MEMORY, OVERFLOW, SCHEMA};
pub use laws::ruled_out_blocks_have_no_true_row;
pub use predicates::filter_bytes;
pub use row_truths::rows;
pub use statistics::filter_statistics;
pub use vx_arrays::ArrayError;
pub use vx_request::RequestError;
pub use zones::rules_out;
