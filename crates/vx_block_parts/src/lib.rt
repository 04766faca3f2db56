//! Some blocks of a store, one behind another, as a store of their own.
#![tactic(auto)]

mod block_parts;
mod laws;
mod part_zones;

pub use block_parts::BlockPart;
pub use laws::{honest_parts_are_honest, parts_join, parts_read_their_blocks};
