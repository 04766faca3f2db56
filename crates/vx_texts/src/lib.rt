//! Lists of texts, kept one behind the other in one buffer beside words of validity.
#![tactic(auto)]

mod bounds;
mod buffer;
mod builder;
mod comparing;
mod errors;
mod kernels;
mod texts;

pub use builder::TextsBuilder;
pub use errors::TextsError;
pub use texts::Texts;
