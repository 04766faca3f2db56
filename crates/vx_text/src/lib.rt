//! Queries as texts: texts to expressions, and back.
#![tactic(auto)]

mod constants;
mod errors;
mod items;
mod laws;
mod literals;
mod naming;
mod operators;
mod parts;
mod queries;
mod reading;
mod steps;
mod types;
mod writable;
mod writing;

pub use errors::TextError;
pub use laws::one_expression;
pub use reading::{MOST_BYTES, read_query};
pub use writing::write_query;
