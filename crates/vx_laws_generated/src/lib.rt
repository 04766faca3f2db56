//! The generated table as a definition, and the laws of it: each is the contract of a function that does nothing.
#![tactic(auto)]

mod answers;
mod tables;

pub use answers::{
    generated_line_is_of_numbers, generated_scans_answer_ids, generated_scans_skip,
    no_generated_phase_breaks,
};
pub use tables::{
    blocks_hold_all_rows, generated_blocks_fit, generated_expressions_are_typed,
    generated_zones_are_honest, generated_zones_are_lawful,
};
