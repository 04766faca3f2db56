//! Constructors of expressions, and the conjuncts of a filter.
#![tactic(auto)]

mod collectors;
mod conjunctions;
mod constructors;
mod into_expr;
mod samples;

pub use collectors::{and_collect, and_collect_right, or_collect};
pub use conjunctions::{conjuncts, operands_of_and, split_conjunction};
pub use constructors::{
    and, between, cast, checked_add, col, eq, get_item, gt, gt_eq, is_null, is_root, list_contains,
    lit, lt, lt_eq, merge, not, not_eq, or, pack, root, select, select_exclude,
};
pub use into_expr::IntoExpr;
pub use samples::struct_dtype;
