//! Laws of the passes that remove selects and merges, of all passes in their order, of the one walk that does their work, and of how many nodes
//! they leave: each is the contract of a function that does nothing.
#![tactic(auto)]

mod removing;
mod simplifying;
mod sizes;
mod walking;

pub use removing::{strict_types_are_loose, without_merge_keeps, without_select_keeps};
pub use simplifying::{
    passes_stay, simplified_nodes_are_simple, simplified_stays, simplified_typed_keeps,
};
pub use sizes::simplified_stays_small;
pub use walking::{walk_makes_the_passes, walked_structs_keep_names};
