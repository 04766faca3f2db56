//! SQL over a table: what an expression or a statement names, or why it names nothing.
#![tactic(auto)]

mod clauses;
mod constants;
mod expressions;
mod leaves;
mod operators;
mod plans;
mod refusals;
mod select_lists;
mod statement_refusals;
mod statements;
mod table_names;

pub use expressions::{MOST_LEVELS, condition_of, operand_of};
pub use plans::{Key, Plan};
pub use refusals::{ExpressionError, Refusal};
pub use statement_refusals::{SqlError, StatementRefusal};
pub use statements::plan;
pub use table_names::table_named;
