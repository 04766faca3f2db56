//! The types of expressions over a scope, by the strict and by the looser rules, and whether what the slots of their comparisons hold fits.
#![tactic(auto)]

mod alike_structs;
mod errors;
mod few_structs;
mod field_places;
mod kinds;
mod loose_rules;
mod loose_typing;
mod merges;
mod merging;
mod rules;
mod scopes;
mod selections;
mod slots;
mod strict_typing;

pub use errors::TypeError;
pub use field_places::{FieldPlace, MergedField};
pub use kinds::{equal_plain, is_bool, is_text, takes_cast, union_of};
pub use loose_typing::return_dtype;
pub use merges::names_in;
pub use merging::{merged_field_names, merged_fields};
pub use slots::{held_fits, slots_fit};
pub use strict_typing::typed;
