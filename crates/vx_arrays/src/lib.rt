//! Columns in the layout of Apache Arrow's columnar format: those of the buffers of a record batch's body, and truths as a bitmap.
#![tactic(auto)]

mod bitmaps;
mod buffers;
mod cells;
mod columns;
mod errors;
mod laws;
mod numbers;
mod texts;
mod truths;

pub use bitmaps::bitmap;
pub use columns::columns_of_arrays;
pub use errors::ArrayError;
pub use laws::{bitmap_is_read, bits_are_truths, columns_are_as_asked, eight_a_byte};
