//! Tests of block files, and of tables that are cut anew.
#![tactic(auto)]

#[cfg(test)]
mod cutting;
#[cfg(test)]
mod files;
#[cfg(test)]
mod samples;
