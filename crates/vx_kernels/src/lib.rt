//! Row-wise work on plain columns: comparisons, matches, Kleene's logic, sums and casts. Each call makes one column of the values of others, by a
//! rule for each row.
#![tactic(auto)]

mod casts;
mod comparisons;
mod likes;
mod logic;
mod lookups;
mod patterns;
mod rows;
mod sums;

pub use casts::cast;
pub use comparisons::{between, compare, list_contains};
pub use likes::like;
pub use logic::{and_kleene, invert, is_null, or_kleene};
pub use sums::{checked_add, checked_sub};
