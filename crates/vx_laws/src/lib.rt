//! Laws over the definitions of vx_semantics: each is the contract of a function that does nothing.
#![tactic(auto)]

mod faults;
mod operators;
mod values;

pub use faults::{no_break_no_fault, no_node_breaks_no_fault};
pub use operators::{
    and_is_associative, and_is_commutative, conjuncts_mean_the_whole, inverse_negates,
    negations_exchange_and_with_or, or_is_associative, or_is_commutative,
    range_means_its_comparisons, swap_keeps_meaning, typed_swap_keeps_meaning,
};
pub use values::{
    accesses_mean_their_path, faults_are_plain, meaning_fits_the_type, meaning_fits_with_any_slots,
};
