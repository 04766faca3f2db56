//! The words of `sql` as a call: a statement of SQL over the table that its FROM names, answered by lines of JSON, block by block as rows are found.
#![tactic(auto)]

mod answers;
mod counting;
mod errors;
mod file_answers;
mod folder_answers;
mod origins;
mod reports;
mod row_lines;
mod rows_by_key;
mod rows_in_order;
mod running;
mod timing;
mod wants;

pub use origins::{Origin, origin_of};
pub use running::sql;
