//! The expressions that the forms of SQL are, and their laws: each is the contract of a function that does nothing.
#![tactic(auto)]

mod meaning;
mod types;
mod typing;

pub use meaning::{
    casts_mean, comparisons_mean, connectives_mean, memberships_mean, null_tests_mean,
    patterns_mean, ranges_mean, sums_mean,
};
pub use types::common_type_is_the_narrowest;
pub use typing::{
    casts_and_sums_are_typed, comparisons_are_tests, connectives_are_tests, memberships_are_tests,
    null_tests_are_tests,
};
