//! What a scan would do with a filter and a projection, as a text, and expressions as texts of the bytes that spell them.
#![tactic(auto)]

mod explaining;
mod pruning;
mod showing;

pub use explaining::explain;
pub use showing::{show, show_query, show_tree};
