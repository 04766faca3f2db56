//! Plain columns of a columnar store: made of values, truths and numbers, and read back; their fields, their rows where a truth is true, and
//! their rows made null. Work that makes one column of the values of others stands in `vx_kernels`.
#![tactic(auto)]

mod cells;
mod columns;
mod constructors;
mod equality;
mod errors;
mod fields;
mod fillers;
mod masks;
mod numbers;
mod parts;
mod plain_values;
mod projections;
mod reading;
mod rows;
mod splits;
mod structs;

pub use columns::ColumnRef;
pub use constructors::made;
pub use errors::ColumnError;
pub use numbers::number_of;
pub use parts::ColumnParts;
pub use plain_values::{is_null_value, of_truth, text_of, truth_of};
pub use reading::RowValue;
pub use splits::column_of;
pub use vx_words::{and_words, not_words, or_words};
