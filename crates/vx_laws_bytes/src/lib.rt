//! Laws of the bytes of what queries name: each is the contract of a function that does nothing.
#![tactic(auto)]

mod short;

pub use short::queries_are_short;
