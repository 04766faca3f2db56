//! The columns of expressions over the rows of a scope, beside their types.
#![tactic(auto)]

mod breaking_rules;
mod column_merges;
mod column_packs;
mod column_rules;
mod column_selections;
mod columns;
mod dynamics;
mod errors;
mod eval;
mod scopes;
mod versions;

pub use errors::EvalError;
pub use eval::ExprEval;
pub use scopes::Scope;
pub use versions::{DynamicExprUpdates, VersionError};
pub use vx_typing::{TypeError, slots_fit};
