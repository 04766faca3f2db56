//! What a run of `sql` over words is: the form of the words, the table that they name, and what is answered over it; and its laws, each the contract of a
//! function that does nothing.
#![tactic(auto)]

mod folder_laws;
mod laws;

pub use folder_laws::folders_hold_their_files;
pub use laws::{
    cut_tables_keep_answers, damage_is_decided, files_are_answered_in_turn, files_are_one_table,
    limits_give_first_rows, parts_join, plans_can_be_run, runs_are_scans, runs_write_answers,
    tables_are_cut_anew, told_tables_are_tables, words_tell_ranges,
};
