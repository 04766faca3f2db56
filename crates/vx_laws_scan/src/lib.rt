//! Laws of pruning and of scans over the definitions of vx_semantics: each is the contract of a function that does nothing.
#![tactic(auto)]

mod agreement;
mod exact;
mod pruning;
mod quiet;

pub use agreement::{
    agreeing_rows_break_the_same, agreeing_rows_mean_the_same, agreeing_tables_have_the_same_reads,
    agreeing_tables_have_the_same_rows,
};
pub use exact::pruning_is_exact;
pub use pruning::{
    kept_numbers_are_kept_blocks, kept_rows_are_all, range_rules_out_as_its_comparisons,
    ruled_out_is_never_true,
};
pub use quiet::quiet_rows_hold_no_fault;
