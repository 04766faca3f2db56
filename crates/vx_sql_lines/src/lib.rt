//! The line that is told where a statement of SQL over a table is refused, and the place in the statement that is told with it; and statements that are
//! answered by what they name, or by that line.
#![tactic(auto)]

mod expressions;
mod lines;
mod names;
mod operands;
mod places;
mod quoted_words;
mod refusals;
mod told;
mod unread;
mod words;

pub use lines::line_of;
pub use places::refused_at;
pub use told::{ToldError, told_plan, told_table};
