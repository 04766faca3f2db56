// The kinds of expressions.

pub mod between;
pub mod binary;
pub mod cast;
pub mod dynamic;
pub mod get_item;
pub mod like;
pub mod list_contains;
pub mod literal;
pub mod merge;
pub mod pack;
pub mod root;
pub mod select;
pub mod unary;
