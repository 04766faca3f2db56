//! The tokens of queries: a text is cut into them, and names, and texts between marks, are written as them.
#![tactic(auto)]

mod characters;
mod lexing;
mod marks;
mod numbers;
mod tokens;

pub use lexing::tokens_of;
pub use marks::{Name, Names, Quote};
pub use numbers::integer_of;
pub use tokens::{Keyword, Sign, Token};
