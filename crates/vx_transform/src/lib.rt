//! Rewriting passes over expressions: replacing, simplifying, and the removal of selects and merges.
#![tactic(auto)]

mod children;
mod errors;
pub mod laws;
mod merged_structs;
mod merges;
mod pack_fields;
mod packs;
mod pairing;
mod range_bounds;
mod rebuilding;
mod replacing;
mod selects;
mod simplifying;
mod struct_heads;
mod types;
mod unpaired_bounds;
mod walking;

pub use children::{with_made, with_these};
pub use errors::TransformError;
pub use packs::pack_of;
pub use replacing::{replace, replace_root_fields};
pub use simplifying::{simplify, simplify_typed};
pub use types::type_of;
