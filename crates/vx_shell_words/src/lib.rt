//! The words of `sql` and of `write`: what they ask.
#![tactic(auto)]

mod asked;
mod numbers;
mod writes;

pub use asked::{Asked, BlockRange, asked_of};
pub use numbers::number_of_word;
pub use writes::{InputForm, WriteAsk, write_asked_of};
