//! Laws of queries as texts: each is the contract of a function that does nothing.
#![tactic(auto)]

mod answers;
mod grammar;
mod room;
mod tokens;
mod written;

pub use answers::reading_is_the_grammar;
pub use grammar::queries_are_those_of_the_grammar;
pub use room::fuel_is_enough;
pub use tokens::{quoted_texts_are_utf8, tokens_are_longest, tokens_are_those_of_the_text};
pub use written::{written_text_is_cut, written_text_is_read};
