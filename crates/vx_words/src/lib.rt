//! Truths kept as words of bits, and Kleene's logic on them.
#![tactic(auto)]

mod bits;
mod logic;
mod truths;

pub use bits::{PLACES, bit, bit_count, both, push_bit, repeated_bit, without};
pub use logic::{and_words, not_words, or_words};
pub use truths::Truths;
