//! The forms of SQL as calls: the expression of each form over its operands, with its type, or why they have no place in it.
#![tactic(auto)]

mod casts;
mod comparisons;
mod connectives;
mod constants;
mod errors;
mod integer_types;
mod matching;
mod memberships;
mod null_tests;
mod operands;
mod ranges;
mod sums;
mod text_patterns;

pub use casts::cast_to;
pub use comparisons::comparison;
pub use connectives::{as_boolean, conjunction, disjunction, negation};
pub use constants::{boolean, text};
pub use errors::{FormError, Mismatch};
pub use integer_types::{common_type, is_plain};
pub use matching::alone;
pub use memberships::{constant_operand, membership};
pub use null_tests::{not_null_test, null_test};
pub use operands::{Operand, TypedExpr};
pub use ranges::range_test;
pub use sums::{difference, sum};
pub use text_patterns::pattern_test;
