//! Laws of expressions split by the columns that they touch: each is the contract of a function that does nothing.
#![tactic(auto)]

mod columns;
mod evaluable;

pub use columns::{
    columns_cover_rowless, columns_recombine, one_column_covers, one_partition_per_column,
    partitions_ask_their_column, partitions_break, partitions_of_asked_columns,
    partitions_stand_alone, splits_by_columns,
};
pub use evaluable::{
    nodes_break_as_asked, partition_nodes_stand_alone, partitions_are_distinct, root_is_typed,
    split_slots_fit,
};
