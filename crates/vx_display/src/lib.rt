//! Expressions and rows as texts.
#![tactic(auto)]

mod field_names;
mod rows;
mod spacing;
mod trees;

pub use field_names::DisplayFieldNames;
pub use rows::{push_row, row_text};
pub use spacing::spaced;
pub use trees::{DisplayTreeExpr, display_tree, tree_text};
