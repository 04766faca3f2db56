//! Tests of typing, evaluation, passes, partition, pruning and zones, a module for what is tested.
#![tactic(auto)]

#[cfg(test)]
mod catalogs;
#[cfg(test)]
mod error_texts;
#[cfg(test)]
mod evaluation;
#[cfg(test)]
mod partition;
#[cfg(test)]
mod pruning;
#[cfg(test)]
mod rewriting;
#[cfg(test)]
mod samples;
#[cfg(test)]
mod typing;
#[cfg(test)]
mod versions;
#[cfg(test)]
mod zones;
