//! What a text of CSV is as a table: its records, the types of its columns, given or found from the cells, and the blocks of its rows; and its laws, each
//! the contract of a function that does nothing.
#![tactic(auto)]

mod laws;

pub use laws::{
    cells_are_of_their_type, cutting_keeps_rows, found_types_are_least, nothing_is_refused,
    numbers_are_their_texts, refused_cells_are_first, tables_hold_the_cells, these_are_all_records,
};
