//! Lists of integers of one type, kept in the type's own width beside words of validity.
#![tactic(auto)]

mod bounds;
mod kernels;
mod lane;
mod numbers;
mod operators;
mod totals;
mod width;

pub use numbers::Numbers;
