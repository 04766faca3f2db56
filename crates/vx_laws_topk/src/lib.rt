//! The first rows of a table by a key, and their laws: each is the contract of a function that does nothing.
#![tactic(auto)]

mod bounding;
mod top;

pub use bounding::{
    block_rows_are_packed, bounded_filter_is_a_filter, further_blocks_follow,
    further_row_goes_behind_ties, keyed_projection_is_both, slotless_is_the_same_with_any_slots,
};
pub use top::{
    bound_loses_none, count_of_none_gives_none, key_order_keeps_rows, top_is_of_all_rows,
    top_of_top,
};
