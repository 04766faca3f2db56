//! Tests of types, expressions, constructors, displays and walks: what stands in no table of vx_cases. And each name of the public surface,
//! imported from the crate that has it.
#![tactic(auto)]

#[cfg(test)]
mod build;
#[cfg(test)]
mod display;
#[cfg(test)]
mod dtype;
#[cfg(test)]
mod entries;
#[cfg(test)]
mod expr;
#[cfg(test)]
mod expression_walks;
#[cfg(test)]
mod number_walks;
#[cfg(test)]
mod numbers;
#[cfg(test)]
mod ones;
#[cfg(test)]
mod readme;
#[cfg(test)]
mod samples;
#[cfg(test)]
mod surface;
#[cfg(test)]
mod zeros;
