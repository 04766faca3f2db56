//! Laws of pruning over accepted zones, by statistics and by expressions over them: each is the contract of a function that does nothing.
#![tactic(auto)]

mod bounds;
mod trees;

pub use bounds::{accepted_pruning_is_exact, known_bounds_are_bounds};
pub use trees::{
    pruning_slots_fit, pruning_tree_is_typed, pruning_tree_never_breaks, pruning_tree_rules_out,
};
