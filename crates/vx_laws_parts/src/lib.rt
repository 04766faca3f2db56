//! Laws of what is left of an expression before it is split, and of expressions split by annotations: each is the contract of a function that
//! does nothing.
#![tactic(auto)]

mod preserving;
mod recombining;
mod taking;

pub use preserving::{
    preserved_is_rowless, preserves_breaks, preserves_columns, preserves_meaning, preserves_type,
};
pub use recombining::{
    parts_are_typed, split_recombines, splits_without_refusal, texts_tell_shares,
};
pub use taking::taken_parts_put_back;
